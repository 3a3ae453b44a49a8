// Why an input is refused, and where: what every entry point gives back in place of an answer.
ghost use Rattle.std.specs.Prelude.{◌≡◌};

// What is wrong. Each fault has a number of its own, which callers in C and readers of the programs' output are told.
#[derive(Clone, Copy, Debug, PartialEq, Eq)]
pub enum Fault {
    // Query fields wrong or cut short.
    QueryField = 1,
    // k not 1 to 100.
    HitCount = 2,
    // No term, or more than 8.
    TermCount = 3,
    // Weight 0.
    Weight = 4,
    // Term twice.
    RepeatedTerm = 5,
    // Shelf too long; a field missing, unexpected, of wrong length or cut short; terms not rising; block count not 1 to 64; a list too many.
    ShelfField = 6,
    // Wrong summary.
    Summary = 7,
    // Wrong body.
    Body = 8,
    // Lent output too short.
    Room = 9,
    // Docid or score out of range; docids not rising; runs of unequal length; nothing to write.
    Posting = 10,
    // The result would pass a limit of postings, lists or bytes.
    Size = 11,
    // List, block or posting not there.
    Absent = 12,
    // Program input too long.
    Input = 13,
}

impl From<Fault> for u8 {
    ghost use Rattle.model.specs.Refusal.{number};

    ghost from_gives = { λ f n. n ≡ number f };

    fn from(fault: Fault) -> u8 {
        fault as u8
    }
}

impl Fault {
    ghost use Rattle.model.specs.Refusal.{refusal};

    // The refusal for it at an offset.
    pub fn at(self, offset: usize) -> Refusal
        ensures { result ≡ refusal self offset }
    {
        Refusal {
            fault: self,
            offset,
        }
    }
}

// A fault and the offset that is told with it: where it stands, or 0 where it has no place.
#[derive(Clone, Copy, Debug, PartialEq, Eq)]
pub struct Refusal {
    pub fault: Fault,
    pub offset: usize,
}

// A pruned search that is refused.
use model::refusal::Refusal;

// The refusal, and how many intervals the book shows: none but where a wrong body was met, which is while the intervals are searched.
#[derive(Clone, Copy, Debug, PartialEq, Eq)]
pub struct Stopped {
    pub refusal: Refusal,
    pub intervals: usize,
}

// Before the search nothing is in the book.
impl From<Refusal> for Stopped {
    ghost use Rattle.std.specs.Prelude.{◌≡◌};
    ghost use Rattle.intervals.specs.Stopped.{early};

    ghost from_gives = { λ r s. s ≡ early r };

    fn from(refusal: Refusal) -> Stopped {
        Stopped {
            refusal,
            intervals: 0,
        }
    }
}

// The head of a query's list: where the list is read. A list's block stands in two buffers, of docids and of scores, in the list's own part of them.
ghost use Rattle.std.specs.Prelude.{◌≡◌, ◌≤◌};
ghost use Rattle.rank.specs.Run.{none};
ghost use Rattle.scan.specs.Heads.{next_head, InBuffers, Skipped};

// Past the last docid: the docid of a head whose list is at its end.
pub const END: u32 = model::MAX_DOCID + 1;

// The posting that a list stands at, the list's weight, the index of the next posting in the buffers and the index past the last.
#[derive(Clone, Copy)]
pub struct Head {
    pub doc: u32,
    pub score: u16,
    pub weight: u8,
    pub at: usize,
    pub end: usize,
}

impl Head {
    // The head at its list's next posting.
    pub fn next(self, docs: &[u32; 800], scores: &[u16; 800]) -> Head
        requires { InBuffers docs.now scores.now self }
        ensures { result ≡ next_head docs.now scores.now self }
    {
        if self.at < self.end {
            return Head {
                doc: docs[self.at],
                score: scores[self.at],
                at: self.at + 1,
                ..self
            };
        }
        Head {
            doc: END,
            score: 0,
            ..self
        }
    }

    // The head at its list's first posting from a docid on.
    pub(crate) fn skipped(self, docs: &[u32; 800], scores: &[u16; 800], first: u32) -> Head
        requires { InBuffers docs.now scores.now self × (first ≤ none) }
        ensures { Skipped docs.now scores.now first self result }
    {
        let mut h = self;
        while h.doc < first {
            h = h.next(docs, scores);
        }
        h
    }
}

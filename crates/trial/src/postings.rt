// Postings: docids and scores side by side, as the entry points take them.
ghost use Rattle.std.specs.Prelude.{◌≤◌};

#[derive(Clone, Copy)]
pub(crate) struct Run<'a> {
    pub(crate) docids: &'a [u32],
    pub(crate) scores: &'a [u16],
}

// Docids beside scores, with room for N: postings, and the hits that are due.
#[derive(Drop)]
pub(crate) struct Rows<S, const N: usize> {
    docids: [u32; N],
    scores: [S; N],
    len: usize,
    ghost within: { len ≤ N },
}

impl<S: Copy + Default, const N: usize> Rows<S, N> {
    pub(crate) fn new() -> Rows<S, N> {
        Rows {
            docids: [0; N],
            scores: [S::default(); N],
            len: 0,
        }
    }

    // Puts a row behind those that are held, if there is room.
    pub(crate) fn push(&mut self, docid: u32, score: S) {
        let at = self.len;
        if at < N {
            self.docids[at] = docid;
            self.scores[at] = score;
            self.len = at + 1;
        }
    }

    pub(crate) fn len(&self) -> usize {
        self.len
    }

    pub(crate) fn docids(&self) -> &[u32] {
        &self.docids[..self.len]
    }

    pub(crate) fn scores(&self) -> &[S] {
        &self.scores[..self.len]
    }
}

pub(crate) type Postings<const N: usize> = Rows<u16, N>;

impl<const N: usize> Rows<u16, N> {
    pub(crate) fn as_run(&self) -> Run<'_> {
        Run {
            docids: self.docids(),
            scores: self.scores(),
        }
    }
}

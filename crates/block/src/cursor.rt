// A body's reading place: it moves posting by posting and is handed on. A body is read as two runs of bytes (`body::edge`).
ghost use Rattle.std.specs.Prelude.{◌≡◌, ◌<◌};
ghost use Rattle.model.specs.Post.{post};
ghost use Rattle.block.specs.Cursor.{fresh, past, moved, step_at, scored_at};
ghost use Rattle.block.specs.declared.cursor.Step.TheVariants.{Posting};

use crate::summary::Summary;

// A reading place in a body: where the next gap number starts in the first run, where a strip's next score starts in the second, the docid
// before the next posting (before the first: the first's own), the block's greatest docid, how many postings are left, whether the first is
// still to come, and whether the body is a strip.
#[derive(Clone, Copy)]
pub struct Cursor {
    pub at: usize,
    pub points: usize,
    pub doc: u32,
    pub greatest: u32,
    pub left: u8,
    pub first: bool,
    pub strip: bool,
}

// What a cursor finds: a posting (docid, score) and the cursor past it; the end; or a fault. No `Result` of an `Option`: each loop over a body has
// a branch of its own for all three.
#[derive(Drop)]
pub enum Step {
    Posting(u32, u16, Cursor),
    End,
    Bad,
}

impl Cursor {
    pub fn new(m: Summary) -> Cursor
        ensures { result ≡ fresh m }
    {
        Cursor {
            at: 0,
            points: 0,
            doc: m.least,
            greatest: m.greatest,
            left: m.count,
            first: true,
            strip: m.strip,
        }
    }

    pub fn next(self, gaps: &[u8], points: &[u8]) -> Step
        ensures { result ≡ step_at gaps.now points.now self }
    {
        let at = self.at;
        if self.left == 0 {
            if at < gaps.len() {
                return Step::Bad;
            }
            if self.points < points.len() {
                return Step::Bad;
            }
            return Step::End;
        }
        let doc = self.doc;
        if self.first {
            return scored(gaps, points, at_posting(self, at, doc));
        }
        match wire::gap::gap(gaps, at, model::GAP_MOST) {
            Ok((g, past)) => {
                let d = (doc as u64) + 1 + g;
                if (self.greatest as u64) < d {
                    return Step::Bad;
                }
                scored(gaps, points, at_posting(self, past, d as u32))
            }
            Err(fault) => Step::Bad,
        }
    }
}

// The cursor of the posting that comes, past its gap number and with its docid: its score is still to be read.
fn at_posting(c: Cursor, at: usize, doc: u32) -> Cursor
    requires { 0 < c.left }
    ensures { result ≡ moved c at doc }
{
    Cursor {
        at,
        points: c.points,
        doc,
        greatest: c.greatest,
        left: c.left - 1,
        first: false,
        strip: c.strip,
    }
}

// The posting of the cursor's docid, whose score stands at its place in the run of its layout, and the cursor past it.
fn scored(gaps: &[u8], points: &[u8], c: Cursor) -> Step
    ensures { result ≡ scored_at gaps.now points.now c }
{
    if c.strip {
        return match wire::gap::score(points, c.points) {
            Ok((w, past)) => past_score(c, w, c.at, past),
            Err(fault) => Step::Bad,
        };
    }
    match wire::gap::score(gaps, c.at) {
        Ok((w, past)) => past_score(c, w, past, c.points),
        Err(fault) => Step::Bad,
    }
}

// A posting found, and the cursor moved to these places.
fn past_score(c: Cursor, score: u16, at: usize, points: usize) -> Step
    ensures { result ≡ Posting c.doc score (past c.strip c.greatest c.left at points (post c.doc score)) }
{
    Step::Posting(
        c.doc,
        score,
        Cursor {
            at,
            points,
            doc: c.doc,
            greatest: c.greatest,
            left: c.left,
            first: false,
            strip: c.strip,
        },
    )
}

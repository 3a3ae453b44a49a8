// Document-at-a-time scoring with one accumulator, over up to eight lists, up to an interval's last docid.
ghost use Rattle.std.specs.Prelude.{◌≤◌, ◌≡◌, length};
ghost use Rattle.model.specs.Runs.{All};
ghost use Rattle.rank.specs.Run.{none};
ghost use Rattle.scan.specs.Heads.{InBuffers, OwnParts};
ghost use Rattle.scan.specs.Run.{Idle, Ready, Ran, AllSkipped, Bounds, Searched};

use crate::head::{END, Head};
use rank::keep::Kept;

// After a run: the hits kept, and where the lists stand.
#[derive(Drop)]
pub struct After {
    pub kept: Kept,
    pub heads: [Head; 8],
}

// How many heads there are up to the last one that stands at a posting.
fn in_use(heads: &[Head; 8]) -> usize
    requires { length heads.now ≡ 8 }
    ensures { (result ≤ 8) × Idle result heads.now }
{
    match heads.iter().rposition(|h| h.doc < END) {
        Some(i) => i + 1,
        None => 0,
    }
}

// The documents up to the last docid: each is scored and handed to the keeper. Both passes over the heads stand here, so that no array of heads is handed on;
// the heads past those in use are at their ends, and stay there.
pub fn run(
    docs: &[u32; 800],
    scores: &[u16; 800],
    heads: [Head; 8],
    last: u32,
    k: usize,
    kept: Kept,
) -> After
    requires { Ready docs.now scores.now heads last k kept }
    ensures { Ran docs.now scores.now heads last k kept result }
{
    let mut hs = heads;
    let mut best = kept.docids;
    let mut sums = kept.scores;
    let mut n = kept.n;
    let m = in_use(&hs);
    loop {
        let mut d = END;
        for h in &hs[..m] {
            d = d.min(h.doc);
        }
        if last < d {
            let kept = Kept {
                docids: best,
                scores: sums,
                n,
            };
            return After { kept, heads: hs };
        }
        let mut s = 0;
        for h in hs[..m].iter_mut() {
            if h.doc == d {
                s += (h.weight as u32) * (h.score as u32);
                *h = h.next(docs, scores);
            }
        }
        n = rank::keep::offer_in(&mut best, &mut sums, n, k, d, s);
    }
}

// The heads at their lists' first postings from a docid on.
pub(crate) fn skip_all(
    heads: [Head; 8],
    docs: &[u32; 800],
    scores: &[u16; 800],
    first: u32,
) -> [Head; 8]
    requires { All (InBuffers docs.now scores.now) heads × OwnParts 0 heads × (first ≤ none) }
    ensures { AllSkipped docs.now scores.now first heads result }
{
    let mut hs = heads;
    for h in hs.iter_mut() {
        *h = h.skipped(docs, scores, first);
    }
    hs
}

// An interval: its documents, from the first docid to the last, scored and handed to the keeper. The lists stand anywhere up to the first docid, and
// after it past the last, so that the next interval reads on from there.
pub fn interval(
    docs: &[u32; 800],
    scores: &[u16; 800],
    heads: [Head; 8],
    first: u32,
    last: u32,
    k: usize,
    kept: Kept,
) -> After
    requires { Bounds docs.now scores.now heads first last k kept }
    ensures { Searched docs.now scores.now heads first last k kept result }
{
    let hs = skip_all(heads, docs, scores, first);
    run(docs, scores, hs, last, k, kept)
}

// The first wrong body of a query's lists in byte order. It is looked for only when there is one.
ghost use Rattle.std.specs.Prelude.{◌≡◌, ◌≤◌, length};
ghost use Rattle.std.proofs.Math.Option.{some};
ghost use Rattle.shelf.specs.Blocks.{Rests};
ghost use Rattle.prune.specs.Prune.{earlier, fault_in};
ghost use Rattle.exhaustive.specs.Merge.{on_shelf, AllWalked, Addressed, start_lefts, fault_left, wrong_of, wrong_here};

use shelf::blocks::{BlockAt, Reading};

// The earlier of a wrong body, if there is one, and another.
fn sooner(w: Option<usize>, at: usize) -> Option<usize>
    ensures { wrong_of result ≡ earlier (wrong_of w) (some at) }
{
    match w {
        Some(o) if o <= at => w,
        _ => Some(at),
    }
}

// The earlier of a wrong body and that of a block, if it is wrong: its tag and its length stand in front of it.
fn judged(shelf: &[u8], b: BlockAt, w: Option<usize>) -> Option<usize>
    requires { (3 ≤ b.start) × (b.start ≤ b.end) × (b.end ≤ length shelf.now) }
    ensures { wrong_of result ≡ earlier (wrong_of w) (wrong_here shelf.now b.summary b.start b.end) }
{
    if block::body::right_body(&shelf[b.start..b.end], b.summary) {
        return w;
    }
    sooner(w, b.start - 3)
}

// The earlier of a wrong body and those of a list.
fn wrong_in(shelf: &[u8], blocks: Reading, before: Option<usize>) -> Option<usize>
    requires { Rests shelf.now blocks }
    ensures { wrong_of result ≡ earlier (wrong_of before) (fault_in (on_shelf shelf.now blocks)) }
{
    let mut reading = blocks;
    let mut w = before;
    while let Some(b) = reading.next(shelf) {
        w = judged(shelf, b, w);
    }
    w
}

// The first of all lists.
pub(crate) fn first_wrong(shelf: &[u8], ats: [usize; 8], counts: [u8; 8]) -> Option<usize>
    requires { AllWalked shelf.now ats counts × Addressed ats counts }
    ensures { wrong_of result ≡ fault_left shelf.now (start_lefts ats counts) }
{
    let mut w = None;
    for (&at, &count) in ats.iter().zip(&counts) {
        let blocks = crate::fill::reading_at(at, count);
        w = wrong_in(shelf, blocks, w);
    }
    w
}

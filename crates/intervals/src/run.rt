// The search over intervals: those that are shut are passed over, the others are opened, in docid order.
ghost use Rattle.std.specs.Prelude.{◌≡◌, [], ◌+◌, ◌≤◌, ◌<◌, length, get_or};
ghost use Rattle.model.specs.Limits.{max_docid};
ghost use Rattle.rank.specs.Rank.{kth};
ghost use Rattle.rank.specs.Keep.{kept_of};
ghost use Rattle.intervals.specs.Run.{last_at, Begins, Idles, Runnable, Runs};

use opening::table::Table;
use rank::keep::Kept;
use scan::head::Head;
use std::array;

// What the search found: the hits kept, and how many blocks were opened.
#[derive(Drop)]
pub struct Run {
    pub kept: Kept,
    pub opened: usize,
}

// Every list's place before its first block: the first at 0, each other where the list before it ends.
fn begin(ends: &[usize], ats: &mut [usize])
    requires { (length ends.now ≡ 8) × (length ats.old ≡ 8) }
    ensures { Begins ends.now ats.new 8 }
{
    ats[0] = 0;
    ats[1..8].copy_from_slice(&ends[..7]);
}

// Every list at its end: before the first interval no block is read.
fn idle(weights: &[u8]) -> [Head; 8]
    requires { length weights.now ≡ 8 }
    ensures { Idles weights.now result 8 }
{
    array::from_fn(|t| opening::enter::ended(weights[t], t))
}

// The last docid of an interval.
fn last_of(starts: &[u32], i: usize) -> u32
    requires { (i < length starts.now) × (i + 1 < length starts.now → 0 < get_or starts.now (i + 1) 0) }
    ensures { result ≡ last_at max_docid starts.now i }
{
    let next = i + 1;
    if next < starts.len() {
        return starts[next] - 1;
    }
    model::MAX_DOCID
}

// The kth score kept, 0 where fewer than k are kept.
fn kth_of(kept: Kept, k: usize) -> u32
    requires { (kept.n ≤ k) × (k ≤ 100) × (0 < k) }
    ensures { result ≡ kth k (kept_of kept) }
{
    rank::keep::kth_in(&kept.scores, kept.n, k)
}

// Each interval in turn, from the blocks that the walk has seen to; or the least offset of a wrong body's tag, where one stops the search.
pub(crate) fn over_intervals(
    shelf: &[u8],
    ends: &[usize],
    blocks: Table<'_>,
    weights: &[u8],
    k: usize,
    starts: &[u32],
    ceilings: &[u32],
    marks: &mut [u8],
) -> Result<Run, usize>
    requires { Runnable shelf.now ends.now blocks.los.now blocks.his.now blocks.tops.now blocks.counts.now blocks.bodies.now weights.now k starts.now ceilings.now marks.old }
    ensures { Runs shelf.now ends.now blocks.entry.los.now blocks.entry.his.now blocks.entry.tops.now blocks.entry.counts.now blocks.entry.bodies.now weights.now k starts.now marks.old marks.new result }
{
    let n = starts.len();
    let mut docs = [0u32; 800];
    let mut scores = [0u16; 800];
    let mut ats = [0usize; 8];
    begin(ends, &mut ats);
    let mut mets = [opening::meet::GAP; 8];
    let mut heads = idle(weights);
    let mut kept = Kept::new();
    let mut opened: usize = 0;
    let mut i = crate::book::skip_shut(ceilings, n, 0, 0, marks);
    // No `for`: the shut intervals behind one are passed over in one step.
    while i < n {
        let first = starts[i];
        let last = last_of(starts, i);
        let was = mets;
        opening::meet::meet_all(ends, blocks, first, &mut ats, &mut mets);
        let turn = opening::turn::open(
            shelf,
            blocks,
            weights,
            &was,
            &mets,
            heads,
            &mut docs,
            &mut scores,
            first,
            last,
            k,
            kept,
        );
        if let Some(at) = turn.wrong {
            marks[i] = 2;
            marks[i + 1..n].fill(3);
            return Err(at);
        }
        heads = turn.heads;
        kept = turn.kept;
        opened += turn.fresh;
        marks[i] = 1;
        let kth = kth_of(kept, k);
        i = crate::book::skip_shut(ceilings, n, kth, i + 1, marks);
    }
    Ok(Run { kept, opened })
}

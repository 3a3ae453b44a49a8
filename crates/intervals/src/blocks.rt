// The search over gathered blocks: the cuts, the book's rows, then the intervals.
ghost use Rattle.std.specs.Prelude.{◌≡◌};
ghost use Rattle.intervals.specs.Blocks.{Walked, room_for, Books};

use crate::run::Run;
use crate::stopped::Stopped;
use model::refusal::Fault;
use opening::table::Table;

// How many intervals there are, and what the search found.
#[derive(Drop)]
pub struct Booked {
    pub intervals: usize,
    pub run: Run,
}

// Whether three runs of these lengths have room for `n` rows.
fn has_room(n: usize, a: usize, b: usize, c: usize) -> bool
    ensures { result ≡ room_for n a b c }
{
    n <= a && n <= b && n <= c
}

// The book is filled only where all three of its runs have room.
pub fn over_blocks(
    shelf: &[u8],
    ends: &[usize],
    blocks: Table<'_>,
    weights: &[u8],
    k: usize,
    firsts: &mut [u32],
    ceilings: &mut [u32],
    marks: &mut [u8],
) -> Result<Booked, Stopped>
    requires { Walked shelf.now ends.now blocks.los.now blocks.his.now blocks.tops.now blocks.counts.now blocks.bodies.now weights.now k }
    ensures { Books shelf.now ends.now blocks.entry.los.now blocks.entry.his.now blocks.entry.tops.now blocks.entry.counts.now blocks.entry.bodies.now weights.now k firsts.old ceilings.old marks.old firsts.new ceilings.new marks.new result }
{
    let mut cuts = [0u32; 1024];
    let m = prune::cut::all_cuts(ends, blocks.los, blocks.his, model::MAX_DOCID, &mut cuts);
    let n = m + 1;
    if !has_room(n, firsts.len(), ceilings.len(), marks.len()) {
        return Err(Stopped::from(Fault::Room.at(0)));
    }
    crate::book::fill_firsts(&cuts, m, firsts);
    let mut tall = [0u32; 1025];
    crate::book::fill_ceilings(
        &firsts[0..n],
        ends,
        blocks.los,
        blocks.his,
        blocks.tops,
        weights,
        &mut tall,
    );
    prune::cut::copy_run(&tall, n, ceilings);
    let found = crate::run::over_intervals(
        shelf,
        ends,
        blocks,
        weights,
        k,
        &firsts[0..n],
        &tall[0..n],
        marks,
    );
    match found {
        Ok(run) => Ok(Booked { intervals: n, run }),
        Err(at) => Err(Stopped {
            refusal: Fault::Body.at(at),
            intervals: n,
        }),
    }
}

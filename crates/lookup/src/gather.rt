// What a search takes from a shelf: the lists of its terms, found in one walk, and their blocks.
ghost use Rattle.std.specs.Prelude.{◌≡◌, ◌≤◌, length};
ghost use Rattle.shelf.specs.Walk.{blocks_at};
ghost use Rattle.lookup.specs.Gather.{Notes, Finds};
ghost use Rattle.lookup.specs.Table.{runs, Layable, Lays, found_lists, Gatherable, Gathered};

use model::refusal::Refusal;
use shelf::blocks::Reading;
use shelf::walk::{Place, Walk};

// ---- the lists of the terms

// What the walk found: where the list of each term begins, and its block count. A term without a list has 0 and 0.
#[derive(Drop)]
pub struct Found {
    pub ats: [usize; 8],
    pub counts: [u8; 8],
}

// Notes a list for each of the first `n` terms that is its own.
fn note<'a>(
    terms: &'a [u32; 8],
    n: usize,
    list: Place,
    ats: &'a mut [usize; 8],
    counts: &'a mut [u8; 8],
)
    requires { (n ≤ 8) × (length terms.now ≡ 8) × (length ats.old ≡ 8) × (length counts.old ≡ 8) }
    ensures { Notes terms.now n list ats.old counts.old ats.new counts.new }
{
    for (i, term) in terms[..n].iter().enumerate() {
        if *term == list.term {
            ats[i] = list.at;
            counts[i] = list.count;
        }
    }
}

// The lists of the first `n` terms.
pub fn find_terms(s: &[u8], terms: [u32; 8], n: usize) -> Result<Found, Refusal>
    requires { n ≤ 8 }
    ensures { Finds s.now terms n result }
{
    let mut ats = [0usize; 8];
    let mut counts = [0u8; 8];
    let mut walk = Walk::new();
    while let Some(list) = walk.next(s)? {
        note(&terms, n, list, &mut ats, &mut counts);
    }
    Ok(Found { ats, counts })
}

// ---- the blocks of the lists that were found

// All blocks, list after list: `n` of them, those of list t up to `ends[t]`. Of each its least docid, its greatest docid,
// its greatest score, its count and the offset of its body's tag.
#[derive(Drop)]
pub struct Blocks {
    pub n: usize,
    pub ends: [usize; 8],
    pub los: [u32; 512],
    pub his: [u32; 512],
    pub tops: [u16; 512],
    pub counts: [u8; 512],
    pub bodies: [u32; 512],
}

// The blocks of one list laid into five runs, from `j` on; gives the place past them.
fn lay_list<'a>(
    s: &'a [u8],
    at: usize,
    count: u8,
    j: usize,
    los: &'a mut [u32; 512],
    his: &'a mut [u32; 512],
    tops: &'a mut [u16; 512],
    counts: &'a mut [u8; 512],
    bodies: &'a mut [u32; 512],
) -> usize
    requires { Layable s.now at count j (runs los.old his.old tops.old counts.old bodies.old) }
    ensures { Lays (blocks_at s.now at count) j result (runs los.old his.old tops.old counts.old bodies.old) (runs los.new his.new tops.new counts.new bodies.new) }
{
    if count == 0 {
        return j;
    }
    let sum = at + 8;
    let mut r = Reading {
        sum,
        body: sum + 12 * (count as usize),
        left: count,
    };
    let mut i = j;
    while let Some(b) = r.next(s) {
        los[i] = b.summary.least;
        his[i] = b.summary.greatest;
        tops[i] = b.summary.top;
        counts[i] = b.summary.count;
        bodies[i] = (b.start - 3) as u32;
        i += 1;
    }
    i
}

// The blocks of the first `n` lists that were found.
pub fn gather(s: &[u8], found: Found, n: usize) -> Blocks
    requires { Gatherable s.now found.ats found.counts n }
    ensures { Gathered (found_lists s.now found.ats found.counts n) result }
{
    let mut ends = [0usize; 8];
    let mut los = [0u32; 512];
    let mut his = [0u32; 512];
    let mut tops = [0u16; 512];
    let mut counts = [0u8; 512];
    let mut bodies = [0u32; 512];
    let mut all = 0;
    for t in 0..n {
        all = lay_list(
            s,
            found.ats[t],
            found.counts[t],
            all,
            &mut los,
            &mut his,
            &mut tops,
            &mut counts,
            &mut bodies,
        );
        ends[t] = all;
    }
    Blocks {
        n: all,
        ends,
        los,
        his,
        tops,
        counts,
        bodies,
    }
}

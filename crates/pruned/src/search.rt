// The pruned ranker. Its refusals come in the paper's order: 1 to 5 by the query, 6 and 7 by the shelf, 9 by the rows and the book, 8 by the bodies
// of the blocks that are met.
ghost use Rattle.std.specs.Prelude.{length};
ghost use Rattle.exhaustive.specs.Merge.{lists_from};
ghost use Rattle.pruned.specs.Pruned.{Searchable, fitting, answer, searched, Answers};

use intervals::stopped::Stopped;
use lookup::gather::Found;
use model::refusal::Fault;
use opening::table::Table;
use rank::keep::Kept;

// How many intervals there are, how many blocks an opened one met, how many blocks the query's lists have; the hits.
#[derive(Drop)]
pub struct Pruned {
    pub intervals: usize,
    pub opened: usize,
    pub blocks: usize,
    pub kept: Kept,
}

// The search over lists that were found. A term that is not asked has no blocks, so all eight are gathered.
fn over_found(
    shelf: &[u8],
    found: Found,
    weights: [u8; 8],
    k: usize,
    firsts: &mut [u32],
    ceilings: &mut [u32],
    marks: &mut [u8],
) -> Result<Pruned, Stopped>
    requires { Searchable shelf.now found.ats found.counts k }
    ensures { Answers (answer (fitting k (lists_from shelf.now weights found.ats found.counts) (length firsts.old) (length ceilings.old) (length marks.old)) firsts.old ceilings.old marks.old) firsts.new ceilings.new marks.new result }
{
    let blocks = lookup::gather::gather(shelf, found, 8);
    let table = Table {
        los: &blocks.los,
        his: &blocks.his,
        tops: &blocks.tops,
        counts: &blocks.counts,
        bodies: &blocks.bodies,
    };
    let booked = intervals::blocks::over_blocks(
        shelf,
        &blocks.ends,
        table,
        &weights,
        k,
        firsts,
        ceilings,
        marks,
    )?;
    Ok(Pruned {
        intervals: booked.intervals,
        opened: booked.run.opened,
        blocks: blocks.n,
        kept: booked.run.kept,
    })
}

// The k best documents of a query with the book of its search, or the refusal; `rows` is how many hits the caller has room for.
pub fn search(
    query: &[u8],
    shelf: &[u8],
    rows: usize,
    firsts: &mut [u32],
    ceilings: &mut [u32],
    marks: &mut [u8],
) -> Result<Pruned, Stopped>
    ensures { Answers (searched query.now shelf.now rows firsts.old ceilings.old marks.old) firsts.new ceilings.new marks.new result }
{
    let asked = query::read::read_query(query)?;
    let found = lookup::gather::find_terms(shelf, asked.terms, asked.n)?;
    let k = asked.k as usize;
    if rows < k {
        return Err(Stopped::from(Fault::Room.at(0)));
    }
    over_found(shelf, found, asked.weights, k, firsts, ceilings, marks)
}

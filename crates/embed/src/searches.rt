// The two rankings. For both the rows are as many as the shorter of the two runs that hits are written to has.
ghost use Rattle.std.specs.Prelude.{min, length};
ghost use Rattle.exhaustive.specs.Exhaustive.{rank_all};
ghost use Rattle.pruned.specs.Pruned.{searched};
ghost use Rattle.embed.specs.Rows.{Hits};
ghost use Rattle.embed.specs.Search.{Finds};

// The best k documents of a query to the front of two runs: numbers 1 to 5, 6, 7, 9, 8. Stores the offset, or how many hits there are.
#[unsafe(no_mangle)]
pub extern "C" fn tagmurlen_rank_all(
    query: &[u8],
    bytes: &[u8],
    docids: &mut [u32],
    scores: &mut [u32],
    value: &mut u64,
) -> u32
    ensures { Hits (rank_all query.now bytes.now (min (length docids.old) (length scores.old))) docids.old scores.old docids.new scores.new result value.new }
{
    let rows = docids.len().min(scores.len());
    let ranked = exhaustive::all::rank_all(query, bytes, rows);
    crate::rows::tell_hits(ranked, docids, scores, value)
}

// The same by the pruned search, which also fills the book's runs: the same numbers. Stores the three counts as well, 0 on a refusal except that 8
// has its interval count.
#[unsafe(no_mangle)]
pub extern "C" fn tagmurlen_search(
    query: &[u8],
    bytes: &[u8],
    docids: &mut [u32],
    scores: &mut [u32],
    firsts: &mut [u32],
    ceilings: &mut [u32],
    marks: &mut [u8],
    value: &mut u64,
    intervals: &mut u64,
    opened: &mut u64,
    blocks: &mut u64,
) -> u32
    ensures { Finds (searched query.now bytes.now (min (length docids.old) (length scores.old)) firsts.old ceilings.old marks.old) docids.old scores.old docids.new scores.new firsts.new ceilings.new marks.new result value.new intervals.new opened.new blocks.new }
{
    let rows = docids.len().min(scores.len());
    match pruned::search::search(query, bytes, rows, firsts, ceilings, marks) {
        Ok(found) => {
            *intervals = found.intervals as u64;
            *opened = found.opened as u64;
            *blocks = found.blocks as u64;
            crate::rows::tell_hits(Ok(found.kept), docids, scores, value)
        }
        Err(stopped) => {
            *intervals = stopped.intervals as u64;
            *opened = 0;
            *blocks = 0;
            crate::rows::tell_hits(Err(stopped.refusal), docids, scores, value)
        }
    }
}

// The two rankers over lent rows, by their C names.
ghost use Rattle.std.specs.Prelude.{length};
ghost use Rattle.exhaustive.specs.Exhaustive.{rank_all};
ghost use Rattle.pruned.specs.Pruned.{searched};
ghost use Rattle.lent.specs.Search.{Searched};
ghost use Rattle.lent.specs.Rows.{Rowed};

use lent::rows::{Hit, RankedRows, SearchedRows};

// The k best documents of a query, all its lists read, in the first rows: numbers 1 to 5, 6, 7, 9, 8. A refusal leaves the rows as they were.
#[unsafe(no_mangle)]
pub extern "C" fn tagmurlen_rank_rows<'a>(
    query: &'a [u8],
    shelf: &'a [u8],
    rows: &'a mut [Hit],
) -> RankedRows
    ensures { Rowed (rank_all query.now shelf.now (length rows.old)) result.number result.offset result.hits rows.old rows.new }
{
    lent::rows::tagmurlen_rank_rows(query, shelf, rows)
}

// The k best documents of a query in the first rows, and the book of the search: numbers 1 to 5, 6, 7, 9, 8. A refusal leaves the rows as they were.
#[unsafe(no_mangle)]
pub extern "C" fn tagmurlen_search_rows<'a>(
    query: &'a [u8],
    shelf: &'a [u8],
    rows: &'a mut [Hit],
    firsts: &'a mut [u32],
    ceilings: &'a mut [u32],
    marks: &'a mut [u8],
) -> SearchedRows
    ensures { Searched (searched query.now shelf.now (length rows.old) firsts.old ceilings.old marks.old) rows.old rows.new firsts.new ceilings.new marks.new result }
{
    lent::rows::tagmurlen_search_rows(query, shelf, rows, firsts, ceilings, marks)
}

// Hits written into lent rows, a docid beside its score.
ghost use Rattle.std.specs.Prelude.{◌≡◌, ◌<◌, length, take};
ghost use Rattle.rank.specs.Keep.{kept_of};
ghost use Rattle.exhaustive.specs.Exhaustive.{rank_all};
ghost use Rattle.pruned.specs.Pruned.{searched};
ghost use Rattle.lent.specs.Search.{Searched};
ghost use Rattle.lent.specs.Rows.{with_hits, Counts, Rowed};

use rank::keep::Kept;

// A row: a docid beside its score.
#[repr(C)]
#[derive(Drop)]
pub struct Hit {
    pub docid: u32,
    pub score: u32,
}

// How many of a keeper's hits there is room for. (A keeper's two runs end at 100.)
fn held(kept: Kept, room: usize) -> usize
    ensures { Counts kept room result }
{
    kept.n.min(100).min(room)
}

// The keeper's hits are written into the first rows, as many as there are rows; the rows past them are not touched.
pub fn fill<'a>(rows: &'a mut [Hit], kept: Kept)
    ensures { rows.new ≡ with_hits (take (length rows.old) (kept_of kept)) rows.old }
{
    let n = held(kept, rows.len());
    for (i, row) in rows[..n].iter_mut().enumerate() {
        *row = Hit {
            docid: kept.docids[i],
            score: kept.scores[i],
        };
    }
}

// ---- the exhaustive ranker

// The refusal's number and offset, both 0 where there is none; the number of hits, 0 in a refusal.
#[repr(C)]
#[derive(Drop)]
pub struct RankedRows {
    pub number: u32,
    pub offset: u64,
    pub hits: u64,
}

// The k best documents of a query, all its lists read, in the first rows: numbers 1 to 5, 6, 7, 9, 8. A refusal leaves the rows as they were.
pub fn tagmurlen_rank_rows<'a>(query: &'a [u8], shelf: &'a [u8], rows: &'a mut [Hit]) -> RankedRows
    ensures { Rowed (rank_all query.now shelf.now (length rows.old)) result.number result.offset result.hits rows.old rows.new }
{
    match exhaustive::all::rank_all(query, shelf, rows.len()) {
        Ok(kept) => {
            fill(rows, kept);
            RankedRows {
                number: 0,
                offset: 0,
                hits: kept.n as u64,
            }
        }
        Err(refusal) => RankedRows {
            number: u32::from(u8::from(refusal.fault)),
            offset: refusal.offset as u64,
            hits: 0,
        },
    }
}

// ---- the pruned ranker

// The refusal's number and offset, both 0 where there is none; how many intervals there are, how many blocks an opened one met, how many blocks the
// query's lists have; the number of hits. The counts are 0 in a refusal, but for the intervals in number 8.
#[repr(C)]
#[derive(Drop)]
pub struct SearchedRows {
    pub number: u32,
    pub offset: u64,
    pub intervals: u64,
    pub opened: u64,
    pub blocks: u64,
    pub hits: u64,
}

// The k best documents of a query in the first rows, and the book of the search: numbers 1 to 5, 6, 7, 9, 8. A refusal leaves the rows as they were.
pub fn tagmurlen_search_rows<'a>(
    query: &'a [u8],
    shelf: &'a [u8],
    rows: &'a mut [Hit],
    firsts: &'a mut [u32],
    ceilings: &'a mut [u32],
    marks: &'a mut [u8],
) -> SearchedRows
    ensures { Searched (searched query.now shelf.now (length rows.old) firsts.old ceilings.old marks.old) rows.old rows.new firsts.new ceilings.new marks.new result }
{
    match pruned::search::search(query, shelf, rows.len(), firsts, ceilings, marks) {
        Ok(found) => {
            fill(rows, found.kept);
            SearchedRows {
                number: 0,
                offset: 0,
                intervals: found.intervals as u64,
                opened: found.opened as u64,
                blocks: found.blocks as u64,
                hits: found.kept.n as u64,
            }
        }
        Err(stopped) => SearchedRows {
            number: u32::from(u8::from(stopped.refusal.fault)),
            offset: stopped.refusal.offset as u64,
            intervals: stopped.intervals as u64,
            opened: 0,
            blocks: 0,
            hits: 0,
        },
    }
}

// The rankers as the trial asks them, and what they may answer.
use crate::pruning::Book;
use model::refusal::{Fault, Refusal};
use pruned::search::Pruned;
use rank::keep::Kept;

// How many hits a ranker may keep.
pub(crate) const ROWS: usize = 100;

// Whether a ranker that reads less of the shelf may answer so where a refusal is due: it may not meet a wrong body, and then meet none or a later one.
pub(crate) fn allows<T>(due: Refusal, answer: &Result<T, Refusal>) -> bool {
    match answer {
        Ok(_) => due.fault == Fault::Body,
        Err(found) if due.fault == Fault::Body => {
            found.fault == Fault::Body && due.offset <= found.offset
        }
        Err(found) => *found == due,
    }
}

// The docids and the scores that a ranker kept.
pub(crate) fn rows(kept: &Kept) -> (&[u32], &[u32]) {
    let n = kept.n.min(ROWS);
    (&kept.docids[..n], &kept.scores[..n])
}

// The hits that the exhaustive ranker keeps.
pub(crate) fn rank_all(query: &[u8], shelf: &[u8]) -> Result<Kept, Refusal> {
    exhaustive::all::rank_all(query, shelf, ROWS)
}

// What the pruned search finds, and its counts; the intervals go into the book.
pub(crate) fn search(query: &[u8], shelf: &[u8], book: &mut Book) -> Result<Pruned, Refusal> {
    pruned::search::search(
        query,
        shelf,
        ROWS,
        &mut book.firsts,
        &mut book.ceilings,
        &mut book.marks,
    )
    .map_err(|stopped| stopped.refusal)
}

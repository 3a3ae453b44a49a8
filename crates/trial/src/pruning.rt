// The pruned ranker: its hits, its book, and what it says where the exhaustive one refuses.
use crate::answers::{allows, rows, search};
use crate::asking::Question;
use crate::second::{Hits, Sums};
use crate::tally::Tally;
use model::refusal::Refusal;
use pruned::search::Pruned;
use rank::keep::Kept;

// The intervals: where each begins, its ceiling, and the mark 1 where it was opened.
#[derive(Drop)]
pub(crate) struct Book {
    pub(crate) firsts: [u32; 1025],
    pub(crate) ceilings: [u32; 1025],
    pub(crate) marks: [u8; 1025],
}

impl Book {
    pub(crate) fn new() -> Book {
        Book {
            firsts: [0; 1025],
            ceilings: [0; 1025],
            marks: [0; 1025],
        }
    }

    // Whether each of the n intervals has the mark that the second ranker says.
    fn is_marked(&self, n: usize, sums: &Sums, k: u8) -> bool {
        self.firsts
            .iter()
            .zip(self.ceilings.iter())
            .zip(self.marks.iter())
            .take(n)
            .all(|((first, ceiling), mark)| *mark == u8::from(sums.is_due(k, *first, *ceiling)))
    }

    // The interval of n that holds a docid.
    fn interval_of(&self, n: usize, docid: u32) -> usize {
        self.firsts
            .iter()
            .take(n)
            .skip(1)
            .position(|first| docid < *first)
            .unwrap_or(n.saturating_sub(1))
    }

    // Whether each hit stands in an interval that was opened, under its ceiling.
    fn has_opened(&self, n: usize, hits: &Hits) -> bool {
        hits.docids().iter().zip(hits.scores()).all(|(docid, score)| {
            let at = self.interval_of(n, *docid);
            self.marks.get(at) == Some(&1)
                && self.ceilings.get(at).is_some_and(|most| *score <= *most)
        })
    }
}

// The pruned search of a sound shelf, whose sheets' sums and best hits the second ranker has found.
pub(crate) fn compare_pruned(
    question: &Question,
    shelf: &[u8],
    sums: &Sums,
    hits: &Hits,
    tally: &mut Tally,
) {
    let mut book = Book::new();
    let Ok(pruned) = search(question.as_slice(), shelf, &mut book) else {
        tally.expect(false);
        return;
    };
    let n = pruned.intervals;
    tally.expect(n != 0 && hits.are_kept(&pruned.kept));
    tally.expect(book.is_marked(n, sums, question.k));
    tally.expect(book.has_opened(n, hits));
    tally.intervals.add(n);
    tally.opened.add(pruned.opened);
    tally.blocks.add(pruned.blocks);
}

// The pruned search with a book that is not looked at.
pub(crate) fn search_only(query: &[u8], shelf: &[u8]) -> Result<Pruned, Refusal> {
    let mut book = Book::new();
    search(query, shelf, &mut book)
}

// Whether the two rankers' answers agree, on a shelf that may be wrong.
pub(crate) fn agree(all: &Result<Kept, Refusal>, pruned: &Result<Pruned, Refusal>) -> bool {
    match (all, pruned) {
        (Ok(ours), Ok(theirs)) => ours.n == theirs.kept.n && rows(ours) == rows(&theirs.kept),
        (Ok(_), Err(_)) => false,
        (Err(refusal), _) => allows(*refusal, pruned),
    }
}

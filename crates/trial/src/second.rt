// A second ranker, over the table alone: every sheet's score is added up, and the best is taken k times. It also says which intervals are opened.
use crate::answers::{ROWS, rows};
use crate::postings::Rows;
use crate::table::{ASKED, SHEETS, Table, docid_of};
use rank::keep::Kept;
use std::array;

// The hits, in order.
pub(crate) type Hits = Rows<u32, ROWS>;

impl Rows<u32, ROWS> {
    // A hit and no other.
    pub(crate) fn one(docid: u32, score: u32) -> Hits {
        let mut hits = Hits::new();
        hits.push(docid, score);
        hits
    }

    // Whether a ranker kept these hits.
    pub(crate) fn are_kept(&self, kept: &Kept) -> bool {
        kept.n == self.len() && rows(kept) == (self.docids(), self.scores())
    }
}

// The sheets' scores.
#[derive(Clone, Copy)]
pub(crate) struct Sums {
    sums: [u32; SHEETS],
}

impl Sums {
    pub(crate) fn of(table: &Table, weights: &[u8; ASKED]) -> Sums {
        Sums {
            sums: array::from_fn(|sheet| table.weigh(weights, sheet)),
        }
    }

    // The best of the sums, struck out: "higher score, then lower docid".
    fn take_best(&mut self) -> Option<(u32, u32)> {
        let score = self.sums.iter().copied().max()?;
        let sheet = self.sums.iter().position(|sum| *sum == score)?;
        if score == 0 {
            return None;
        }
        self.sums[sheet] = 0;
        Some((docid_of(sheet), score))
    }

    // The k best sheets.
    pub(crate) fn rank(&self, k: u8) -> Hits {
        let mut left = *self;
        let mut hits = Hits::new();
        for _ in 0..k {
            let Some((docid, score)) = left.take_best() else {
                break;
            };
            hits.push(docid, score);
        }
        hits
    }

    // How many sheets below a docid score at least as much as a ceiling.
    fn as_good(&self, first: u32, ceiling: u32) -> usize {
        self.sums
            .iter()
            .enumerate()
            .filter(|(sheet, sum)| docid_of(*sheet) < first && ceiling <= **sum)
            .count()
    }

    // Whether an interval is opened: unless its ceiling is 0, or k sheets below it are already as good as anything in it can be.
    pub(crate) fn is_due(&self, k: u8, first: u32, ceiling: u32) -> bool {
        ceiling != 0 && self.as_good(first, ceiling) < usize::from(k)
    }
}

// The postings as they were made: a list for each of 16 terms, of a score for each of 256 sheets.
ghost use Rattle.std.specs.Prelude.{◌<◌, ◌≤◌};
ghost use Rattle.trial.specs.declared.table.TheConstants.{TERMS, SHEETS};

use crate::postings::Postings;

pub(crate) const TERMS: usize = 16;

pub(crate) const SHEETS: usize = 256;

// The terms that a query may ask: one more, which is on no shelf.
pub(crate) const ASKED: usize = 17;

// A score is 0 where the list does not hold the sheet; a strip's tag is 04.
#[derive(Clone, Copy)]
struct List {
    scores: [u16; SHEETS],
    is_strip: bool,
}

impl List {
    fn is_empty(&self) -> bool {
        self.scores.iter().all(|score| *score == 0)
    }

    // An emptied list's layout goes with it: "a new list gets 03".
    fn store(&mut self, sheet: usize, score: u16)
        requires { sheet < SHEETS }
    {
        self.scores[sheet] = score;
        if self.is_empty() {
            self.is_strip = false;
        }
    }
}

#[derive(Drop)]
pub(crate) struct Table {
    lists: [List; TERMS],
}

impl Table {
    pub(crate) fn new() -> Table {
        let empty = List {
            scores: [0; SHEETS],
            is_strip: false,
        };
        Table {
            lists: [empty; TERMS],
        }
    }

    pub(crate) fn score(&self, term: usize, sheet: usize) -> u16
        requires { (term < TERMS) × (sheet < SHEETS) }
    {
        self.lists[term].scores[sheet]
    }

    // Whether a term has a list: whether some sheet is in it.
    pub(crate) fn is_listed(&self, term: usize) -> bool
        requires { term < TERMS }
    {
        !self.lists[term].is_empty()
    }

    // Whether some list holds the sheet.
    pub(crate) fn is_held(&self, sheet: usize) -> bool
        requires { sheet < SHEETS }
    {
        self.lists.iter().any(|list| list.scores[sheet] != 0)
    }

    pub(crate) fn store(&mut self, term: usize, sheet: usize, score: u16)
        requires { (term < TERMS) × (sheet < SHEETS) }
    {
        self.lists[term].store(sheet, score);
    }

    pub(crate) fn withdraw(&mut self, sheet: usize)
        requires { sheet < SHEETS }
    {
        for list in self.lists.iter_mut() {
            list.store(sheet, 0);
        }
    }

    // Whether a term's list is a strip.
    pub(crate) fn is_strip(&self, term: usize) -> bool
        requires { term < TERMS }
    {
        self.lists[term].is_strip
    }

    // A term's list gets the other layout.
    pub(crate) fn turn(&mut self, term: usize)
        requires { term < TERMS }
    {
        let list = &mut self.lists[term];
        list.is_strip = !list.is_strip;
    }

    // "Its score is the sum of weight times stored score." A term that is not asked has the weight 0.
    pub(crate) fn weigh(&self, weights: &[u8; ASKED], sheet: usize) -> u32
        requires { sheet < SHEETS }
    {
        let mut sum = 0;
        for (term, list) in self.lists.iter().enumerate() {
            sum += u32::from(weights[term]) * u32::from(list.scores[sheet]);
        }
        sum
    }

    pub(crate) fn postings(&self, term: usize) -> Postings<SHEETS>
        requires { term < TERMS }
    {
        let mut postings = Postings::new();
        for (sheet, score) in self.lists[term].scores.iter().enumerate() {
            if *score != 0 {
                postings.push(docid_of(sheet), *score);
            }
        }
        postings
    }
}

// The terms' numbers reach from 0 to nearly the greatest; the one past the last is on no shelf.
pub(crate) fn term_number(term: usize) -> u32
    requires { term ≤ TERMS }
{
    term as u32 * 268435455
}

// Where a sheet stands in its group of eight: the gap numbers in a group are 0, 126, 127, 128, 16,383, 16,384 and one of three bytes.
fn in_group(i: u32) -> u32
    ensures { result ≤ 524286 }
{
    match i {
        0 => 0,
        1 => 1,
        2 => 128,
        3 => 256,
        4 => 385,
        5 => 16769,
        6 => 33154,
        _ => 524286,
    }
}

// The docid of a sheet: from 1 to 16,777,215, rising.
pub(crate) fn docid_of(sheet: usize) -> u32
    requires { sheet < SHEETS }
{
    let s = sheet as u32;
    1 + s / 8 * 524288 + in_group(s % 8)
}

// A history of edits and conversions. After each the table says what must have come of it.
ghost use Rattle.std.specs.Prelude.{◌<◌};
ghost use Rattle.trial.specs.declared.table.TheConstants.{TERMS, SHEETS};

use crate::bench::Bench;
use crate::chance::Chance;
use crate::comparing::compare_any;
use crate::table::{SHEETS, TERMS, Table, docid_of, term_number};
use crate::writing::one_writing;
use model::refusal::{Fault, Refusal};
use shelf::check::check;

// What stands in the output before an edit.
const BLANK: u8 = 0xa5;

#[derive(Clone, Copy)]
enum Kind {
    Set { score: u16 },
    Clear,
    Withdraw,
    Convert,
}

// An edit has a term and a sheet by chance, whether or not its kind asks for them.
#[derive(Clone, Copy)]
struct Edit {
    kind: Kind,
    term: usize,
    sheet: usize,
    docid: u32,
    ghost a_term: { term < TERMS },
    ghost a_sheet: { sheet < SHEETS },
}

// ---- an edit by chance

// Of 36 steps, as many set as `sets` says, one withdraws, four convert, and the rest clear.
fn kind_of(step: usize, sets: usize, score: u16) -> Kind {
    if step < sets {
        return Kind::Set { score };
    }
    match step {
        0..31 => Kind::Clear,
        31 => Kind::Withdraw,
        _ => Kind::Convert,
    }
}

// The sheet's docid, or now and then one out of range.
fn docid(chance: &mut Chance, sheet: usize) -> u32
    requires { sheet < SHEETS }
{
    match chance.draw(64) {
        0 => 0,
        1 => model::MAX_DOCID + 1,
        _ => docid_of(sheet),
    }
}

// A score, small more often than not, so that scores tie; 0 now and then.
fn score(chance: &mut Chance) -> u16 {
    if chance.draw(4) == 0 {
        return chance.draw(65536) as u16;
    }
    chance.draw(9) as u16
}

// Low terms come more often, so that some lists have several blocks while others come and go.
fn term(chance: &mut Chance) -> usize
    ensures { result < TERMS }
{
    let bound = 1 + chance.draw(TERMS);
    chance.draw(bound)
}

// The refusal where there is nothing to act on.
fn missing(found: bool) -> Option<Refusal> {
    (!found).then_some(Fault::Absent.at(0))
}

impl Edit {
    // The high terms are set on three sheets only, so that their lists are emptied and made anew.
    fn by_chance(chance: &mut Chance, sets: usize) -> Edit {
        let step = chance.draw(36);
        let term = term(chance);
        let any = chance.draw(SHEETS);
        let sheet = if 9 < term { any % 3 * 85 } else { any };
        let docid = docid(chance, sheet);
        let score = score(chance);
        Edit {
            kind: kind_of(step, sets, score),
            term,
            sheet,
            docid,
        }
    }

    fn converts(&self) -> bool {
        matches!(self.kind, Kind::Convert)
    }

    // The refusal that is due, if one is.
    fn due(&self, table: &Table) -> Option<Refusal> {
        let out_of_range = self.docid == 0 || model::MAX_DOCID < self.docid;
        match self.kind {
            Kind::Convert => missing(table.is_listed(self.term)),
            _ if out_of_range => Some(Fault::Posting.at(0)),
            Kind::Set { score } => (score == 0).then_some(Fault::Posting.at(0)),
            Kind::Clear => missing(table.score(self.term, self.sheet) != 0),
            Kind::Withdraw => missing(table.is_held(self.sheet)),
        }
    }

    fn apply(&self, table: &mut Table) {
        match self.kind {
            Kind::Set { score } => table.store(self.term, self.sheet, score),
            Kind::Clear => table.store(self.term, self.sheet, 0),
            Kind::Withdraw => table.withdraw(self.sheet),
            Kind::Convert => table.turn(self.term),
        }
    }

    // What an entry point answers to it.
    fn make(&self, shelf: &[u8], out: &mut [u8]) -> Result<usize, Refusal> {
        let term = term_number(self.term);
        match self.kind {
            Kind::Set { score } => edit::edit::set(shelf, term, self.docid, score, out),
            Kind::Clear => edit::edit::clear(shelf, term, self.docid, out),
            Kind::Withdraw => edit::edit::withdraw(shelf, self.docid, out),
            Kind::Convert => convert::convert::convert(shelf, term, out),
        }
    }
}

// ---- the edit made, and what came of it

fn is_blank(out: &[u8]) -> bool {
    out.iter().all(|byte| *byte == BLANK)
}

impl Bench {
    // "Counts in a refusal are 0 and outputs are untouched"
    fn refuse(&mut self, edit: &Edit, refusal: Refusal) {
        let due = edit.due(&self.table) == Some(refusal);
        self.tally.expect(due && is_blank(&self.out));
    }

    // An edit that was accepted: the table follows it, and then the shelf, whose length a conversion keeps. The output holds the bytes of one
    // writing, which the checker finds sound, and past them what it held before. Where the edit's term then has a strip, that strip was compared
    // with the writer's.
    fn follow(&mut self, edit: &Edit, n: usize) {
        self.tally.expect(edit.due(&self.table).is_none());
        edit.apply(&mut self.table);
        one_writing(&self.table, &mut self.fresh);
        let Some((made, rest)) = self.out.split_at_checked(n) else {
            self.tally.expect(false);
            return;
        };
        let kept = n == self.shelf.len || !edit.converts();
        let written = made == self.fresh.as_slice();
        self.tally
            .expect(kept && written && check(made).is_ok() && is_blank(rest));
        if self.table.is_strip(edit.term) {
            self.tally.strips.add(1);
        }
        self.shelf.clear();
        self.shelf.push(made);
    }

    // One edit of the shelf.
    fn step(&mut self, edit: &Edit) {
        self.out.fill(BLANK);
        let outcome = edit.make(self.shelf.as_slice(), &mut self.out);
        if edit.converts() {
            self.tally.conversions.count(outcome);
        } else {
            self.tally.edits.count(outcome);
        }
        match outcome {
            Ok(n) => self.follow(edit, n),
            Err(refusal) => self.refuse(edit, refusal),
        }
    }

    // Edits and conversions, `sets` of 36 being sets, each followed by a query.
    pub(crate) fn edit_often(&mut self, edits: usize, sets: usize) {
        for _ in 0..edits {
            let edit = Edit::by_chance(&mut self.chance, sets);
            self.step(&edit);
            compare_any(
                &self.table,
                self.shelf.as_slice(),
                &mut self.chance,
                &mut self.tally,
            );
        }
    }
}

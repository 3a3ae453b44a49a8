// The table's postings in small blocks, so that a search has many intervals.
use crate::bench::Bench;
use crate::bytes::Bytes;
use crate::comparing::compare_any;
use crate::damage::damage_often;
use crate::limits::is_turned;
use crate::table::{TERMS, term_number};
use crate::writing::cut;
use shelf::check::check;

impl Bench {
    // A list of the shelf cut anew, converted: the shelf is then cut alike with that list in the other layout, and converted again it is itself.
    fn turn_one(&mut self) {
        let term = self.chance.draw(TERMS);
        if !self.table.is_listed(term) {
            return;
        }
        let mut again = self.chance;
        let mut other = Bytes::new();
        cut(&self.table, &mut self.chance, &mut self.fresh);
        self.table.turn(term);
        cut(&self.table, &mut again, &mut other);
        self.table.turn(term);
        let number = term_number(term);
        let there = is_turned(self.fresh.as_slice(), number, other.as_slice());
        let back = is_turned(other.as_slice(), number, self.fresh.as_slice());
        self.tally.expect(there && back);
    }

    // The shelf cut anew, searched, and damaged.
    fn cut_once(&mut self, times: usize) {
        cut(&self.table, &mut self.chance, &mut self.fresh);
        let shelf = self.fresh.as_mut_slice();
        self.tally.expect(check(shelf).is_ok());
        for _ in 0..times {
            compare_any(&self.table, shelf, &mut self.chance, &mut self.tally);
        }
        damage_often(shelf, times, &mut self.chance, &mut self.tally);
    }

    pub(crate) fn cut_often(&mut self, cuts: usize, times: usize) {
        for _ in 0..cuts {
            self.turn_one();
            self.cut_once(times);
        }
    }
}

// The trial: the entry points against a second ranker and a table of the postings as they were made. Prints what it counted; `differ` must be 0.
#![tactic(auto)]

mod answers;
mod asking;
mod bench;
mod bytes;
mod chance;
mod comparing;
mod damage;
mod history;
mod limits;
mod pieces;
mod postings;
mod pruning;
mod second;
mod table;
mod tally;
mod writing;

use bench::Bench;
use std::io;

impl Bench {
    // A history of edits and conversions; then the same postings in small blocks, and the shelf damaged.
    fn stage(&mut self, edits: usize, sets: usize) {
        self.edit_often(edits, sets);
        self.cut_often(20, 20);
        damage::damage_often(
            self.shelf.as_mut_slice(),
            200,
            &mut self.chance,
            &mut self.tally,
        );
    }
}

// The shelf grows, and shrinks again; the paper's list comes between.
fn main(rt: HostRuntime) -> io::Result<()> {
    let mut bench = Bench::new(20261115);
    bench.stage(4000, 29);
    bench.reach_limits();
    bench.stage(3000, 9);
    let tally = bench.tally;
    println!(rt; "{tally}")
}

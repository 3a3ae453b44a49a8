// What a run of the trial works on.
use crate::bytes::{Bytes, ROOM};
use crate::chance::Chance;
use crate::table::Table;
use crate::tally::Tally;

#[derive(Drop)]
pub(crate) struct Bench {
    pub(crate) table: Table,
    // The shelf that the edits make, always one writing of the table.
    pub(crate) shelf: Bytes<ROOM>,
    // What an entry point writes into.
    pub(crate) out: [u8; ROOM],
    // What the trial itself writes into.
    pub(crate) fresh: Bytes<ROOM>,
    pub(crate) chance: Chance,
    pub(crate) tally: Tally,
}

impl Bench {
    pub(crate) fn new(seed: u64) -> Bench {
        Bench {
            table: Table::new(),
            shelf: Bytes::new(),
            out: [0; ROOM],
            fresh: Bytes::new(),
            chance: Chance::new(seed),
            tally: Tally::default(),
        }
    }
}

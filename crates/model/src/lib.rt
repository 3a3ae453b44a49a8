// The words that all crates share: limits by name, a refusal, a posting, an outcome, runs of numbers; and the laws on them.
#![tactic(auto)]

pub mod refusal;

// Sheet numbers are 1 to this.
pub const MAX_DOCID: u32 = 16777215;

// Postings in a block, blocks in a list, postings in a list.
pub const PER_BLOCK: u32 = 100;

pub const PER_LIST: u8 = 64;

pub const MAX_POSTINGS: usize = 6400;

// Lists and bytes of a shelf.
pub const MAX_LISTS: u16 = 1024;

pub const MAX_SHELF: usize = 1048576;

// Of a query: k, its terms.
pub const MAX_K: u8 = 100;

pub const MAX_TERMS: usize = 8;

// Bytes of a gap number.
pub const GAP_MOST: u8 = 4;

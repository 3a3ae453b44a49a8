// Bytes as numbers, read at a place of a slice and stored at a place of a buffer.
#![tactic(auto)]

pub mod field;
pub mod gap;
pub mod number;

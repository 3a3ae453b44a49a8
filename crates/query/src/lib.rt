// A query: its fields, their refusals 1 to 5, and what it asks.
#![tactic(auto)]

pub mod faults;
pub mod fields;
pub mod read;

// One posting list between bytes and runs: its reader and its writer.
#![tactic(auto)]

pub mod read;
pub mod write;

// The three edits of a shelf: set, clear, withdraw.
#![tactic(auto)]

pub mod edit;
pub mod holds;
pub mod withdraw;

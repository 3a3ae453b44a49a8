// The two programs, whole: standard input is read, the answer to it is asked for, and that is written. Nothing is decided here.
#![tactic(auto)]

pub mod checker;
pub mod search;
pub mod whole;

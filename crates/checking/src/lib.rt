// The checker program's output for its input.
#![tactic(auto)]

pub mod verdict;

// The search program's output for its input.
#![tactic(auto)]

pub mod report;

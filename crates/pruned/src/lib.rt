// The pruned ranker.
#![tactic(auto)]

pub mod search;

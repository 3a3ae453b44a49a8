// Ranking: the order of hits, which sheets match, and the keeper of the k best.
#![tactic(auto)]

pub mod keep;

// The exhaustive ranker: every body of the query's lists is read once, and the documents are merged out of them.
#![tactic(auto)]

pub mod all;
pub mod fill;
pub mod merge;
pub mod wrong;

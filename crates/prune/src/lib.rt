// Pruning: cuts, ceilings, and whether an interval is opened.
#![tactic(auto)]

pub mod ceiling;
pub mod cut;
pub mod open;

// The search over gathered blocks, interval by interval.
#![tactic(auto)]

pub mod blocks;
pub mod book;
pub mod run;
pub mod stopped;

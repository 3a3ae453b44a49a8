// A shelf is lists: the walk that finds the first fault of number 6 or 7, the blocks of a list one by one, the checker.
#![tactic(auto)]

pub mod blocks;
pub mod check;
pub mod walk;

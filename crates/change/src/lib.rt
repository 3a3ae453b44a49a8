// What an edit changes: a posting put into two runs or taken out of them, a list's seat in a shelf, the shelf with another list there.
#![tactic(auto)]

pub mod copy;
pub mod place;
pub mod runs;
pub mod seat;
pub mod splice;

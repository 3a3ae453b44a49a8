// One block of a posting list: its summary, and its body by a cursor that goes by value from posting to posting.
#![tactic(auto)]

pub mod body;
pub mod cursor;
pub mod summary;

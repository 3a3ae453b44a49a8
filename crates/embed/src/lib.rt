// The entry points for C and Rust. Each returns the refusal's number, 0 where there is none, and stores the refusal's offset or its result through
// `value`. A slice is passed as a pointer and a length. Thin: one call, and its answer taken apart.
#![tactic(auto)]

pub mod checks;
pub mod edits;
pub mod lists;
pub mod report;
pub mod rows;
pub mod searches;

// The rows form for C: hits as an array of rows. Each entry point is the function of `lent` of its name, with the same promise.
#![tactic(auto)]

pub mod rows;

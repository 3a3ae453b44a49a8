// The converter: one list to the other layout, block by block.
#![tactic(auto)]

pub mod convert;

// Blocks read once into buffers, and the documents of up to eight lists scored out of them, one after another.
#![tactic(auto)]

pub mod head;
pub mod load;
pub mod run;

// Standard input and standard output, read and written whole: what a call of the system answered decides what comes next.
#![tactic(auto)]

pub mod call;
pub mod input;
pub mod output;

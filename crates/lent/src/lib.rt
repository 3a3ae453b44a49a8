// Forms over what the caller lends: hits written into rows, a list shown in place.
#![tactic(auto)]

pub mod rows;
pub mod view;

// What the search program prints: where the query ends in its input, and its lines.
#![tactic(auto)]

pub mod line;
pub mod number;
pub mod rows;
pub mod said;
pub mod split;

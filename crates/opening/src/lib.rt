// One interval opened: which block of each list it meets, those blocks read, its sheets ranked.
#![tactic(auto)]

pub mod enter;
pub mod meet;
pub mod table;
pub mod turn;

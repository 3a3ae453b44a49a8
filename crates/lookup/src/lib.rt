// Looking things up in a shelf: one list by its term, shown in place; the lists of a search's terms, and their blocks.
#![tactic(auto)]

pub mod find;
pub mod gather;

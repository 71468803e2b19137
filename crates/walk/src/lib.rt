// The walk along dependency records from modules that are marked: all that they reach through eligible modules is marked.
#![tactic(auto)]

pub mod four;
pub mod plain;
pub mod walk;

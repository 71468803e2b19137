// Modules as numbers that hold six bytes of the id above the place in the list, for the sort by id.
#![tactic(auto)]

pub mod keys;

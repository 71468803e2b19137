// Modules in the byte order of their ids. Each round sorts numbers that hold six bytes of each id, and the next round goes through the runs of
// ids that have these bytes in common.
#![tactic(auto)]

pub mod insertion;
pub mod rounds;

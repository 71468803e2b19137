// The positions of a set by subgroup, subgroups by the lowest rank in them.
#![tactic(auto)]

pub mod division;
pub mod lowest;

// Orders of numbers and of modules: whether numbers ascend, and a sort by insertion for short lists.
#![tactic(auto)]

pub mod ascent;
pub mod insertion;

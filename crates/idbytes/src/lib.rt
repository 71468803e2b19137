// Bytes of ids: a few as one number, and those that ids have in common at their start.
#![tactic(auto)]

pub mod blocks;
pub mod shared;

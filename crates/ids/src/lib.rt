// Stable ids as parts of one byte slice.
#![tactic(auto)]

pub mod offsets;
pub mod order;
pub mod parts;

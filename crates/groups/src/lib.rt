// The groups turned into chunks, in the order of their priority.
#![tactic(auto)]

pub mod convert;

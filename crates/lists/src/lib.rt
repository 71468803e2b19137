// Small definitions over lists and numbers, with their laws, for the contracts of the crates above.
#![tactic(auto)]

pub mod fill;
pub mod store;

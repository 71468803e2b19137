// Step 1 for one group: the modules that take part, by name.
#![tactic(auto)]

pub mod by_name;
pub mod matched;

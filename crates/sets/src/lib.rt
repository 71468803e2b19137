// Step 1 for one group: the set of each name in execution order, by a walk from all its starts.
#![tactic(auto)]

pub mod built;
pub mod captured;
pub mod gathered;

// Step 2 in tables: the kinds of entry bits of an entries-aware set, their merge, and the set listed by the subgroup that each module ends in.
#![tactic(auto)]

pub mod kinds;
pub mod processing;
pub mod stages;

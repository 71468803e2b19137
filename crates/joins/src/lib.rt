// Subgroups of an entries-aware set: which of two seeks first, which is nearer to the seeker, and what a join leaves.
#![tactic(auto)]

pub mod candidate;
pub mod sizes;
pub mod subgroup;

// Modules of a kind listed, and modules put in execution order, which says whether two share one (refusal 5).
#![tactic(auto)]

pub mod by_order;
pub mod listed;
mod slots;

// The ranks of modules among their ids, and whether two share an id (refusal 4).
#![tactic(auto)]

pub mod by_id;

// The two subgroups that join next: which one seeks, which is the nearest to it, and the list of those still there.
#![tactic(auto)]

pub mod heads;
pub mod list;
pub mod nearest;
pub mod search;
pub mod words;

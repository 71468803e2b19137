// What is added up over the tables of a build: the total of the sizes (refusal 6), and P over the answers, with the test of each (refusal 10).
#![tactic(auto)]

pub mod answers;
pub mod names;
pub mod totals;

// A sort of numbers, by insertion, part by part, run by run or by digits. Stated as equal to the sort by insertion of `lists`, ties in their order.
#![tactic(auto)]

pub mod numbers;
mod runs;

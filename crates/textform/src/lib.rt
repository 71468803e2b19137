// The text form of calls and answers: lines and words read, numbers, doubles and bytes as words, and answers written.
#![tactic(auto)]

pub mod doubles;
pub mod entries;
pub mod out;
pub mod reading;
pub mod values;

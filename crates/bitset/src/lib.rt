// Entry bits: a set of up to 256 entries as four words in one value.
#![tactic(auto)]

pub mod entries;
pub mod table;
pub mod word;

// Recorded cases of Capture and Merge: each is read from a line of the text form, run and answered.
#![tactic(auto)]

pub mod captures;
pub mod looks;
pub mod merges;

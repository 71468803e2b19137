// What is printed of a call over the largest build: the list of chunks, and what the areas show to be wrong.
#![tactic(auto)]

pub mod areas;
mod chunks;
mod looks;

// Every condition of the call Chunks, tested in order: those of the input, and apart from them those of the state. No lent area is written.
#![tactic(auto)]

pub mod content;
pub mod input;
pub mod lengths;
pub mod ordering;
pub mod state;

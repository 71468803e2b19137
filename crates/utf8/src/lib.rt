// UTF-8 (RFC 3629).
#![tactic(auto)]

pub mod start;
pub mod states;
pub mod text;

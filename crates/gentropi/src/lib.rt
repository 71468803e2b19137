// The functions for a host in Rust or C. Each answers 0 or the number of a refusal, and writes its values through `&mut`.
#![tactic(auto)]

pub mod captures;
pub mod cuts;
pub mod filters;
pub mod merges;
pub mod naming;
pub mod similar;
pub mod splits;

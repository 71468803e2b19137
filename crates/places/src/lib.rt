// Before a run of Chunks: the modules in execution order and in id order, with refusals 4 and 5 tested on the way.
#![tactic(auto)]

pub mod ordered;

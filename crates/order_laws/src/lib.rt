// Laws of the order of the work list: it is strict, and other execution orders leave items with the same modules in it. This crate has no code.
#![tactic(auto)]

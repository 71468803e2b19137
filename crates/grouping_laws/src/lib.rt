// Laws of the definition of Chunks, the renumbering rule among them. This crate has no code.
#![tactic(auto)]

// An item above its maximum: its modules in id order, and the pieces that they are cut into.
#![tactic(auto)]

pub mod marks;
pub mod neighbours;
pub mod order;
pub mod pieces;

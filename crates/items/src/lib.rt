// One work item on its turn: what no chunk has taken of it is dropped, emitted whole, or emitted in pieces.
#![tactic(auto)]

pub mod convert;

// The largest build, and what is changed in it.
//
// It has 4,096 modules, 64 groups, 256 entries, 65,535 names and 65,535 dependency records. Module i has the size 2^41, so that all have 2^53,
// the order 4,294,967,295 less i, the entry i % 256, and an id of two bytes; that of module 0 has 1,024 bytes. Group g matches every module i
// with i % 64 = g, under the name 65,534 less g; its priority is g. All records stand on the chain of module 0, which so depends on every
// module. Only group 0 captures dependencies; it comes last, so that it makes a chunk of what the others leave.
#![tactic(auto)]

pub mod change;
pub mod counts;
pub mod fill;
pub mod spoil;
pub mod tables;

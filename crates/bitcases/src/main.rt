// Runs what the text form has no words for: sets of entry bits, and a merge whose area of bits is one word short.
#![tactic(auto)]

mod bit_sets;
mod short_bits;

fn main() {
    bit_sets::sets();
    bit_sets::tests();
    short_bits::merge();
}

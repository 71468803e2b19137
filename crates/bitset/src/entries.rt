// BitSet: four words in one value, entry 0 being the lowest bit of the first word.
ghost use Rattle.std.specs.Prelude.{◌≡◌, ◌<◌};
ghost use Rattle.bitset.specs.Entries.{empty, has_bit, with_bit, union_of, differing, beyond};

use crate::word::{any_from, test_bit};

#[derive(Clone, Copy, PartialEq, Eq)]
pub struct BitSet {
    pub words: [u64; 4],
}

impl BitSet {
    pub fn new() -> BitSet
        ensures { result ≡ empty }
    {
        BitSet {
            words: [0, 0, 0, 0],
        }
    }

    pub fn has_bit(self, entry: usize) -> bool
        requires { entry < 256 }
        ensures { result ≡ has_bit self entry }
    {
        let words = self.words;
        let at = entry / 64;
        test_bit(words[at], entry % 64)
    }

    pub fn set_bit(self, entry: usize) -> BitSet
        requires { entry < 256 }
        ensures { result ≡ with_bit self entry }
    {
        let mut words = self.words;
        let at = entry / 64;
        words[at] |= 1u64 << (entry % 64);
        BitSet { words }
    }

    pub fn union(self, other: BitSet) -> BitSet
        ensures { result ≡ union_of self other }
    {
        let a = self.words;
        let b = other.words;
        BitSet {
            words: [a[0] | b[0], a[1] | b[1], a[2] | b[2], a[3] | b[3]],
        }
    }

    // The entries that exactly one of the two sets has: the ones of each word of the exclusive or.
    pub fn symmetric_difference_count(self, other: BitSet) -> u32
        ensures { result ≡ differing self other }
    {
        let a = self.words;
        let b = other.words;
        (a[0] ^ b[0]).count_ones()
            + (a[1] ^ b[1]).count_ones()
            + (a[2] ^ b[2]).count_ones()
            + (a[3] ^ b[3]).count_ones()
    }

    // Refusal 9: an entry at or above the count of entries.
    pub fn has_bit_from(self, entries: usize) -> bool
        ensures { result ≡ beyond entries self }
    {
        let words = self.words;
        any_from(words[0], 0, entries)
            || any_from(words[1], 64, entries)
            || any_from(words[2], 128, entries)
            || any_from(words[3], 192, entries)
    }
}

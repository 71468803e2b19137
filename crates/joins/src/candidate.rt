// What a search keeps of a subgroup, and the order that it goes by.
ghost use Rattle.std.specs.Prelude.{◌≡◌, ◌<◌, ltb, length};
ghost use Rattle.lists.specs.Least.{earlier};
ghost use Rattle.joins.specs.Candidate.{seeking, comes_first, seeker_at, target_at, ones_apart, Row, Exact};

use crate::sizes::size_at;
use bitset::entries::BitSet;
use bitset::table::row;

// A subgroup's number, its size, and how many entries tell it from the seeker: 0 while a seeker is looked for.
#[derive(Clone, Copy)]
pub struct Candidate {
    pub number: usize,
    pub size: f64,
    pub distance: u32,
}

impl Candidate {
    // Number i where a seeker is looked for.
    pub fn seeker_at(sizes: &[u64], i: usize) -> Candidate
        requires { Exact sizes.now × (i < length sizes.now) }
        ensures { result ≡ seeker_at sizes.now i }
    {
        Candidate {
            number: i,
            size: size_at(sizes, i),
            distance: 0,
        }
    }

    // Number i where the target of a seeker with the wanted entries is looked for.
    pub fn target_at(sizes: &[u64], bits: &[u64], i: usize, wanted: BitSet) -> Candidate
        requires { Row sizes.now bits.now i }
        ensures { result ≡ target_at sizes.now bits.now wanted i }
    {
        Candidate {
            number: i,
            size: size_at(sizes, i),
            distance: wanted.symmetric_difference_count(row(bits, i)),
        }
    }

    // 0 < size < threshold: a size of 0 never seeks.
    pub fn seeks(self, threshold: f64) -> bool
        ensures { result ≡ seeking threshold self }
    {
        0.0 < self.size && self.size < threshold
    }

    // The fewest entries that tell it from the seeker first, then the smallest size, then the lowest number. It is no comparison of tuples: at a size
    // that is NaN that would answer false, where `comes_first` goes on to the numbers.
    pub fn comes_before(self, other: Candidate) -> bool
        ensures { result ≡ comes_first self other }
    {
        if self.distance < other.distance {
            return true;
        }
        if other.distance < self.distance {
            return false;
        }
        if self.size < other.size {
            return true;
        }
        if other.size < self.size {
            return false;
        }
        self.number < other.number
    }

    // Whether the first words alone rule another set out: they tell it from the wanted one by more entries than this one has. A word has 64 entries, so
    // none is counted where this one has as many.
    pub fn rules_out(self, wanted: u64, other: u64) -> bool
        ensures { result ≡ ltb self.distance (ones_apart wanted other) }
    {
        self.distance < 64 && self.distance < (wanted ^ other).count_ones()
    }

    // The nearest so far, once number i was looked at.
    pub fn or_target(self, sizes: &[u64], bits: &[u64], i: usize, wanted: BitSet) -> Candidate
        requires { Row sizes.now bits.now i }
        ensures { result ≡ earlier comes_first self (target_at sizes.now bits.now wanted i) }
    {
        let x = Candidate::target_at(sizes, bits, i, wanted);
        if x.comes_before(self) {
            return x;
        }
        self
    }
}

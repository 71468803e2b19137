// One place to cut, and how two of them compare.
ghost use Rattle.std.specs.Prelude.{◌≡◌};
ghost use Rattle.cut.specs.Candidate.{oversized, larger_side, beats_by_size, beats};

// A cut at an index: the similarity of the two ids that it parts, and the sizes of its two sides.
#[derive(Clone, Copy)]
pub struct Candidate {
    pub index: usize,
    pub similarity: u32,
    pub left: f64,
    pub right: f64,
}

impl Candidate {
    // How many sides are above the maximum.
    #[tactic(auto, unfolding(crate::specs::Candidate::oversized))]
    pub fn oversized_side_count(self, maximum: f64) -> u32
        ensures { result ≡ oversized maximum self }
    {
        u32::from(maximum < self.left) + u32::from(maximum < self.right)
    }

    #[tactic(auto, unfolding(crate::specs::Candidate::larger_side))]
    pub fn max_side_size(self) -> f64
        ensures { result ≡ larger_side self }
    {
        if self.left < self.right {
            return self.right;
        }
        self.left
    }

    // The comparison by sizes, where the similarities differ by at most 10.
    #[tactic(auto, unfolding(crate::specs::Candidate::beats_by_size))]
    pub fn beats_by_size(self, best: Candidate, maximum: f64) -> bool
        ensures { result ≡ beats_by_size maximum self best }
    {
        let mine = self.oversized_side_count(maximum);
        let other = best.oversized_side_count(maximum);
        if mine < other {
            return true;
        }
        if other < mine {
            return false;
        }
        self.max_side_size() < best.max_side_size()
    }

    // Whether this later cut replaces the best so far. Wider numbers, so that the sums can't wrap.
    #[tactic(auto, unfolding(crate::specs::Candidate::beats))]
    pub fn is_better(self, best: Candidate, maximum: f64) -> bool
        ensures { result ≡ beats maximum self best }
    {
        let mine = self.similarity as u64;
        let other = best.similarity as u64;
        if mine + 10 < other {
            return true;
        }
        if other + 10 < mine {
            return false;
        }
        self.beats_by_size(best, maximum)
    }
}

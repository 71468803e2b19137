// The best of a search so far, and the search for the seeker: the heads are looked through.
ghost use Rattle.std.specs.Prelude.{◌≡◌, map};
ghost use Rattle.lists.specs.Keep.{keep};
ghost use Rattle.lists.specs.Least.{least};
ghost use Rattle.joins.specs.Candidate.{seeking, comes_first, seeker_at};
ghost use Rattle.seeking.specs.Search.{found_of, gives_way, looked, Readable};

use joins::candidate::Candidate;

// Whether one more takes the place of the best so far: there is none yet, or it comes before.
#[tactic(auto, unfolding(crate::specs::Search::gives_way))]
pub fn gives_way(best: Option<Candidate>, x: Candidate) -> bool
    ensures { result ≡ gives_way best x }
{
    best.is_none_or(|so_far| x.comes_before(so_far))
}

// The best seeker, once one more was looked at.
pub fn or_seeker(best: Option<Candidate>, x: Candidate, threshold: f64) -> Option<Candidate>
    ensures { found_of result ≡ looked comes_first (seeking threshold x) (found_of best) x }
{
    if !gives_way(best, x) {
        return best;
    }
    if !x.seeks(threshold) {
        return best;
    }
    Some(x)
}

// The subgroup that seeks: of the heads with 0 < size < threshold, the smallest, then the lowest number.
pub fn find_seeker(heads: &[u32], sizes: &[u64], threshold: f64) -> Option<Candidate>
    requires { Readable heads.now sizes.now }
    ensures { found_of result ≡ least comes_first (keep (seeking threshold) (map (seeker_at sizes.now) heads.now)) }
{
    let mut best = None;
    for &head in heads {
        best = or_seeker(best, Candidate::seeker_at(sizes, head as usize), threshold);
    }
    best
}

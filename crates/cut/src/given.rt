// The cut of modules in the order given, with running totals.
ghost use Rattle.std.specs.Prelude.{◌≡◌, ◌-◌, ◌^◌, ◌≤◌, ◌<◌, length};
ghost use Rattle.lists.specs.Sum.{sum};
ghost use Rattle.whole.specs.Double.{sum_f64};
ghost use Rattle.ids.specs.Parts.{ids_of};
ghost use Rattle.cut.specs.Cut.{cut_of};
ghost use Rattle.cut.specs.Call.{chosen_of};
ghost use Rattle.cut.specs.Order.{alike, NamedPair, GivenOrder};
ghost use Rattle.cut.specs.Scan.{considered};

use crate::Cut;
use crate::alike::similarity_between;
use crate::candidate::Candidate;
use crate::scan::{Bounds, both_reach, into_cut, or_better};
use ids::parts::Ids;
use index::ModuleIdx;

// All sizes, added one after the other.
fn total_of(sizes: &[u64]) -> f64
    requires { sum sizes.now ≤ 2 ^ 53 }
    ensures { result ≡ sum_f64 sizes.now }
{
    let mut total = 0.0;
    for &size in sizes {
        total += size as f64;
    }
    total
}

// The best cut once place i was looked at. The ids are compared only if the cut is allowed.
fn look_at(
    ids: &Ids,
    i: usize,
    left: f64,
    right: f64,
    bounds: Bounds,
    best: Option<Candidate>,
) -> Option<Candidate>
    requires named_pair { NamedPair ids.now.bytes.now ids.now.offsets.now (i - 1) i }
    requires le_i { (1 ≤ i) × (i < 2 ^ 32) }
    ensures { result ≡ considered bounds best (record {
      index = i;
      similarity = alike ids.now.bytes.now ids.now.offsets.now (i - 1) i;
      left = left;
      right = right;
    }) }
{
    if !both_reach(bounds.minimum, left, right) {
        return best;
    }
    let before = (i - 1) as u32;
    let after = i as u32;
    let similarity = similarity_between(ids, ModuleIdx(before), ModuleIdx(after));
    let candidate = Candidate {
        index: i,
        similarity,
        left,
        right,
    };
    or_better(best, candidate, bounds.maximum)
}

// The cut of ids and sizes in the order given.
pub fn pick_given(ids: &Ids, sizes: &[u64], minimum: f64, maximum: f64) -> Cut
    requires { GivenOrder ids.now.bytes.now ids.now.offsets.now sizes.now }
    ensures { chosen_of result ≡ cut_of (ids_of (length sizes.now) ids.now.bytes.now ids.now.offsets.now)
        sizes.now minimum maximum }
{
    let bounds = Bounds { minimum, maximum };
    let total = total_of(sizes);
    let mut best = None;
    let mut left = 0.0;
    for i in 1..sizes.len() {
        left += sizes[i - 1] as f64;
        best = look_at(ids, i, left, total - left, bounds, best);
    }
    into_cut(best, sizes.len())
}

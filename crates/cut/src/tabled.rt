// The cut of modules whose neighbours were compared before. Parts of two tables of more modules serve as the tables of some of them.
ghost use Rattle.std.specs.Prelude.{◌≡◌, ◌≤◌, length};
ghost use Rattle.cut.specs.Cut.{cut_of};
ghost use Rattle.cut.specs.Call.{chosen_of};
ghost use Rattle.cut.specs.Tables.{Tabled};

use crate::Cut;
use crate::candidate::Candidate;
use crate::scan::{Bounds, consider, into_cut};

// The cut of modules of a total size, by how alike each is to the one before it and by the sizes that lie before each.
pub fn pick_by_similarity(
    similar: &[u32],
    sums: &[f64],
    total: f64,
    minimum: f64,
    maximum: f64,
) -> Cut
    requires { (1 ≤ length similar.now) × (length similar.now ≤ length sums.now) }
    ensures { (m : Tabled similar.now sums.now total) → chosen_of result ≡ cut_of m.ids m.sizes minimum maximum }
{
    let bounds = Bounds { minimum, maximum };
    let before = sums[0];
    let mut best = None;
    for i in 1..similar.len() {
        let left = sums[i] - before;
        let candidate = Candidate {
            index: i,
            similarity: similar[i],
            left,
            right: total - left,
        };
        best = consider(best, candidate, bounds);
    }
    into_cut(best, similar.len())
}

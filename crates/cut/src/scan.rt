// The scan over the places to cut, upwards: the best so far, and what one more place does to it.
ghost use Rattle.std.specs.Prelude.{◌≡◌, ◌&&◌};
ghost use Rattle.std.specs.Float.Ieee.{le};
ghost use Rattle.cut.specs.Call.{chosen_of};
ghost use Rattle.cut.specs.Scan.{replaced, ruled_out, considered, chosen_from};

use crate::candidate::Candidate;
use crate::{Cut, CutPoint};

// The least size that a side reaches, and the size above which it is too large.
#[derive(Clone, Copy)]
pub struct Bounds {
    pub minimum: f64,
    pub maximum: f64,
}

// The best of the allowed cuts so far, or a later allowed cut that replaces it.
#[tactic(auto, unfolding(crate::specs::Cut::better))]
pub fn or_better(best: Option<Candidate>, later: Candidate, maximum: f64) -> Option<Candidate>
    ensures { result ≡ replaced maximum best later }
{
    match best {
        Some(so_far) => if later.is_better(so_far, maximum) {
            Some(later)
        } else {
            best
        },
        None => Some(later),
    }
}

// Whether ids are too alike for a cut between them to replace the best, whatever its sides are.
pub fn rules_out(best: Option<Candidate>, similarity: u32) -> bool
    ensures { result ≡ ruled_out best similarity }
{
    best.is_some_and(|so_far| so_far.similarity as u64 + 10 < similarity as u64)
}

// The best once a cut was looked at. Most cuts fall by their similarity, so that it is tested first.
pub fn consider(best: Option<Candidate>, later: Candidate, bounds: Bounds) -> Option<Candidate>
    ensures { result ≡ considered bounds best later }
{
    if rules_out(best, later.similarity) {
        return best;
    }
    if !both_reach(bounds.minimum, later.left, later.right) {
        return best;
    }
    or_better(best, later, bounds.maximum)
}

// What was found among so many modules. Where it is nothing, their number says why.
pub fn into_cut(best: Option<Candidate>, count: usize) -> Cut
    ensures { chosen_of result ≡ chosen_from count best }
{
    match best {
        Some(found) => Cut::At(CutPoint {
            index: found.index,
            left_size: found.left,
            right_size: found.right,
        }),
        None if count < 2 => Cut::FewerThanTwo,
        None => Cut::NoneAllowed,
    }
}

// Whether both sides reach the minimum.
pub fn both_reach(minimum: f64, left: f64, right: f64) -> bool
    ensures { result ≡ (le minimum left && le minimum right) }
{
    minimum <= left && minimum <= right
}

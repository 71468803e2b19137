// The cut of an oversized list of modules in two, by relevance of their ids and then by size.
#![tactic(auto)]

pub mod alike;
pub mod candidate;
pub mod given;
pub mod scan;
pub mod sizes;
pub mod tabled;

ghost use Rattle.std.specs.Prelude.{◌≡◌};
ghost use Rattle.cut.specs.Call.{cut_call, outcome_of};

use ids::parts::Ids;
use refusal::Refusal;

// A cut: the index of the first module on the right, and the sizes of the two sides.
#[derive(Clone, Copy)]
pub struct CutPoint {
    pub index: usize,
    pub left_size: f64,
    pub right_size: f64,
}

// There is no cut of fewer than two modules, and of more there may be none that is allowed.
#[derive(Clone, Copy)]
pub enum Cut {
    FewerThanTwo,
    NoneAllowed,
    At(CutPoint),
}

// The public call: ids and sizes in the order given.
pub fn pick_relevance_split_index(
    n: usize,
    ids: &Ids,
    sizes: &[u64],
    minimum: f64,
    maximum: f64,
) -> Result<Cut, Refusal>
    ensures { outcome_of result ≡ cut_call n ids.now.bytes.now ids.now.offsets.now sizes.now minimum maximum }
{
    if refusal::MODULE_LIMIT < n {
        return Err(Refusal::Count);
    }
    if ids.offsets.len() != n + 1 {
        return Err(Refusal::Length);
    }
    if sizes.len() != n {
        return Err(Refusal::Length);
    }
    if ids::offsets::bad_offsets(ids::offsets::ID_LIMIT, ids.bytes.len(), ids.offsets) {
        return Err(Refusal::Id);
    }
    if whole::total_exceeds(sizes) {
        return Err(Refusal::Total);
    }
    if limit::is_nan(minimum) {
        return Err(Refusal::Nan);
    }
    if limit::is_nan(maximum) {
        return Err(Refusal::Nan);
    }
    Ok(given::pick_given(ids, sizes, minimum, maximum))
}

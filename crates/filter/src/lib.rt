// The static filter of a group: what it asks of a matched module before the module's capture is taken.
#![tactic(auto)]

ghost use Rattle.std.specs.Prelude.{◌≡◌, ◌≤◌, ◌^◌};
ghost use Rattle.refusal.specs.Answers.{outcome_of};
ghost use Rattle.filter.specs.Filter.{shared_enough, passes, asks_nothing, filter_call};

use refusal::Refusal;

// The limits in force for a group, and the tags that it asks for.
#[derive(Clone, Copy)]
pub struct StaticFilter {
    pub tags: u64,
    pub min_module_size: Option<f64>,
    pub max_module_size: Option<f64>,
    pub min_share_count: Option<u32>,
}

#[tactic(auto, unfolding(crate::specs::Filter::shared_enough))]
pub fn shared_enough(least: Option<u32>, count: u32) -> bool
    ensures { result ≡ shared_enough least count }
{
    least.is_none_or(|minimum| minimum <= count)
}

// Whether a filter asks nothing, so that every module passes and none has to be looked at.
#[tactic(auto, unfolding(crate::specs::Filter::asks_nothing))]
pub fn asks_nothing(filter: StaticFilter) -> bool
    ensures { result ≡ asks_nothing filter }
{
    filter.tags == 0
        && filter.min_module_size.is_none()
        && filter.max_module_size.is_none()
        && filter.min_share_count.is_none()
}

// Whether a module of at most 2^53 bytes passes.
#[tactic(auto, unfolding(crate::specs::Filter::passes))]
pub fn passes_within(filter: StaticFilter, tags: u64, size: u64, share_count: u32) -> bool
    requires { size ≤ 2 ^ 53 }
    ensures { result ≡ passes filter tags size share_count }
{
    bitset::word::contains_all(tags, filter.tags)
        && limit::at_least(filter.min_module_size, size as f64)
        && limit::at_most(filter.max_module_size, size as f64)
        && shared_enough(filter.min_share_count, share_count)
}

// The public call: refuses 6, that size above 2^53, and 8, a limit that is NaN.
pub fn passes_static_filters(
    filter: StaticFilter,
    tags: u64,
    size: u64,
    share_count: u32,
) -> Result<bool, Refusal>
    ensures { outcome_of result ≡ filter_call filter tags size share_count }
{
    if whole::TOTAL_LIMIT < size {
        return Err(Refusal::Total);
    }
    if limit::is_nan_limit(filter.min_module_size) {
        return Err(Refusal::Nan);
    }
    if limit::is_nan_limit(filter.max_module_size) {
        return Err(Refusal::Nan);
    }
    Ok(passes_within(filter, tags, size, share_count))
}

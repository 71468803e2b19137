// Filter for a host: an absent limit is a bool beside a number.
ghost use Rattle.std.specs.Prelude.{◌≡◌};
ghost use Rattle.filter.specs.Filter.{filter_call};
ghost use Rattle.gentropi.specs.After.{filter_given, FilterExport};

use filter::StaticFilter;

#[unsafe(no_mangle)]
pub extern "C" fn gentropi_filter(
    mask: u64,
    has_min: bool,
    min_module_size: f64,
    has_max: bool,
    max_module_size: f64,
    has_shares: bool,
    min_share_count: u32,
    tags: u64,
    size: u64,
    share_count: u32,
    passes: &mut bool,
) -> u32
    ensures { FilterExport
        (filter_call (filter_given mask has_min min_module_size has_max max_module_size has_shares min_share_count) tags size share_count)
        result passes.old passes.new }
{
    let filter = StaticFilter {
        tags: mask,
        min_module_size: has_min.then_some(min_module_size),
        max_module_size: has_max.then_some(max_module_size),
        min_share_count: has_shares.then_some(min_share_count),
    };
    let answer = filter::passes_static_filters(filter, tags, size, share_count);
    match answer {
        Err(refusal) => refusal.number(),
        Ok(value) => {
            *passes = value;
            0
        }
    }
}

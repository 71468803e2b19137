// A group's option overrides the global one, and the defaults.
ghost use Rattle.std.specs.Prelude.{◌≡◌};
ghost use Rattle.options.specs.Force.{in_force, filter_of, settings_under};

use crate::{Group, Options, Settings};
use filter::StaticFilter;

fn in_force(own: Options, global: Options) -> Options
    ensures { result ≡ in_force own global }
{
    Options {
        min_size: own.min_size.or(global.min_size),
        max_size: own.max_size.or(global.max_size),
        min_module_size: own.min_module_size.or(global.min_module_size),
        max_module_size: own.max_module_size.or(global.max_module_size),
        min_share_count: own.min_share_count.or(global.min_share_count),
        recursion: own.recursion.or(global.recursion),
    }
}

// What the static filter of a group is handed.
fn filter_of(g: Group, force: Options) -> StaticFilter
    ensures { result ≡ filter_of g force }
{
    StaticFilter {
        tags: g.tags,
        min_module_size: force.min_module_size,
        max_module_size: force.max_module_size,
        min_share_count: force.min_share_count,
    }
}

// The settings of a group under the global options: an absent minimum is 0, and recursion is on where nothing is said.
pub fn settings_under(global: Options, g: Group) -> Settings
    ensures { result ≡ settings_under global g }
{
    let force = in_force(g.options, global);
    Settings {
        filter: filter_of(g, force),
        recursive: force.recursion.unwrap_or(true),
        priority: g.priority,
        entries_aware: g.entries_aware,
        threshold: g.threshold,
        min_size: force.min_size.unwrap_or(0.0),
        max_size: force.max_size,
    }
}

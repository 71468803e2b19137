// The settings of all groups, which their options and the global ones give.
ghost use Rattle.std.specs.Prelude.{◌≤◌};
ghost use Rattle.options.specs.Force.{settings_under};
ghost use Rattle.options.specs.Tables.{group_at, tables_of};
ghost use Rattle.conditions.specs.HandsIn.{HasGroups};
ghost use Rattle.turns.specs.Order.{AreSettings};

use filter::StaticFilter;
use options::force::settings_under;
use options::tables::{Groups, group_at};
use options::{Options, Settings};

// What stands where there is no group.
fn unset() -> Settings {
    Settings {
        filter: StaticFilter {
            tags: 0,
            min_module_size: None,
            max_module_size: None,
            min_share_count: None,
        },
        recursive: false,
        priority: 0,
        entries_aware: false,
        threshold: 0.0,
        min_size: 0.0,
        max_size: None,
    }
}

// The settings of each of the g groups.
pub fn all_settings(global: Options, groups: &Groups, g: usize) -> [Settings; 64]
    requires { (HasGroups (tables_of groups.now) g) × (g ≤ 64) }
    ensures { AreSettings result g (λ i. settings_under global (group_at (tables_of groups.now) i)) }
{
    let none = unset();
    let mut all = [none; 64];
    for i in 0..g {
        let group = group_at(groups, i);
        all[i] = settings_under(global, group);
    }
    all
}

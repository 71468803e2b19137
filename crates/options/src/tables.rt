// The groups as flat tables: an option that a group has, and a group read from its entries.
ghost use Rattle.std.specs.Prelude.{◌≡◌};
ghost use Rattle.options.specs.Tables.{options_by, group_at, HasGroup, tables_of};

use crate::{Group, Options};
use bitset::word::test_bit;

// The tables of the groups, one entry a group each.
#[derive(Clone, Copy)]
pub struct Groups<'a> {
    pub given: &'a [u8],
    pub min_size: &'a [f64],
    pub max_size: &'a [f64],
    pub min_module_size: &'a [f64],
    pub max_module_size: &'a [f64],
    pub min_share_count: &'a [u32],
    pub tags: &'a [u64],
    pub priority: &'a [u32],
    pub threshold: &'a [f64],
}

// The options that a group's byte says it has.
#[tactic(auto, unfolding(crate::specs::Tables::options_by))]
pub fn options_by(
    has: u64,
    min_size: f64,
    max_size: f64,
    min_module_size: f64,
    max_module_size: f64,
    min_share_count: u32,
) -> Options
    ensures { result ≡ options_by has min_size max_size min_module_size max_module_size min_share_count }
{
    Options {
        min_size: test_bit(has, 0).then_some(min_size),
        max_size: test_bit(has, 1).then_some(max_size),
        min_module_size: test_bit(has, 2).then_some(min_module_size),
        max_module_size: test_bit(has, 3).then_some(max_module_size),
        min_share_count: test_bit(has, 4).then_some(min_share_count),
        recursion: test_bit(has, 5).then_some(test_bit(has, 6)),
    }
}

// Group g.
pub fn group_at(groups: &Groups, g: usize) -> Group
    requires { HasGroup (tables_of groups.now) g }
    ensures { result ≡ group_at (tables_of groups.now) g }
{
    let has = groups.given[g] as u64;
    Group {
        options: options_by(
            has,
            groups.min_size[g],
            groups.max_size[g],
            groups.min_module_size[g],
            groups.max_module_size[g],
            groups.min_share_count[g],
        ),
        tags: groups.tags[g],
        priority: groups.priority[g],
        entries_aware: test_bit(has, 7),
        threshold: groups.threshold[g],
    }
}

// Refusal 8: a given limit or threshold is NaN, of the global options or of a group.
ghost use Rattle.std.specs.Prelude.{◌≡◌};
ghost use Rattle.lists.specs.Below.{any_below};
ghost use Rattle.options.specs.Nan.{nan_group};
ghost use Rattle.options.specs.Tables.{group_at, tables_of};
ghost use Rattle.grouping.specs.Given.{Given};
ghost use Rattle.grouping.specs.Conditions.{bad_limit};
ghost use Rattle.conditions.specs.HandsIn.{HasGroups, HandsOptions};

use options::Options;
use options::tables::Groups;

fn nan_among_groups(groups: &Groups, g: usize) -> bool
    requires { HasGroups (tables_of groups.now) g }
    ensures { result ≡ any_below (λ i. nan_group (group_at (tables_of groups.now) i)) g }
{
    for i in 0..g {
        let group = options::tables::group_at(groups, i);
        if options::nan::nan_group(group) {
            return true;
        }
    }
    false
}

pub fn bad_limit(global: Options, groups: &Groups, g: usize) -> bool
    requires { HasGroups (tables_of groups.now) g }
    ensures { (b : Given) → HandsOptions b global g (tables_of groups.now) → result ≡ bad_limit b }
{
    if options::nan::nan_options(global) {
        return true;
    }
    nan_among_groups(groups, g)
}

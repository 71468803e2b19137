// The modules of a kind, written to the front of an area.
ghost use Rattle.std.specs.Prelude.{◌<◌};
ghost use Rattle.lists.specs.Keep.{keep};
ghost use Rattle.flags.specs.Flags.{eligible_at};
ghost use Rattle.exec_order.specs.Listed.{listed_in, Kept, Room, Chosen};

use flags::{is_eligible_at, is_listed};
use index::ModuleIdx;

// Writes the normal included modules, by number.
pub fn list_modules(flags: &[u8], list: &mut [u32]) -> usize
    requires { Room flags.now list.old }
    ensures { Kept (listed_in flags.now) result list.old list.new }
{
    let mut count = 0;
    for (m, byte) in flags.iter().enumerate() {
        list[count] = m as u32;
        if is_listed(*byte) {
            count += 1;
        }
    }
    count
}

// Writes those of the list that are eligible, in their order.
pub fn keep_eligible(flags: &[u8], list: &[u32], order: &mut [u32]) -> usize
    requires { Chosen flags.now list.now order.old }
    ensures { Kept (keep (eligible_at flags.now) list.now) result order.old order.new }
{
    let mut count = 0;
    for m in list {
        order[count] = *m;
        if is_eligible_at(flags, ModuleIdx(*m)) {
            count += 1;
        }
    }
    count
}

// The three stages of an entries-aware set in lent tables: its kinds, their merge, and the division by what the merge leaves.
ghost use Rattle.std.specs.Prelude.{◌≡◌, ◌≤◌, length};
ghost use Rattle.subgroups.specs.Finding.{Members, KindRoom};
ghost use Rattle.subgroups.specs.Merged.{Ranked, Processed};

use crate::kinds::find_kinds;
use division::division::divide;
use merge::engine::merge_in_place;

// Finds the kinds of a set, merges them, and lists the positions by the subgroup that each ends in. Before the merge the table of
// final numbers holds the links between kinds, and after it that of sizes is the spare one of the sort.
pub fn run_stages(
    bits: &[u64],
    sizes: &[u64],
    set: &[u32],
    rank: &[u32],
    threshold: f64,
    kind_of: &mut [u32],
    kind_sizes: &mut [u64],
    kind_bits: &mut [u64],
    finals: &mut [u32],
    order: &mut [u32],
)
    requires { Members bits.now sizes.now set.now × KindRoom set.now kind_of.old kind_sizes.old kind_bits.old
        × (length set.now ≤ length finals.old) × (length order.old ≡ length set.now) × Ranked rank.now set.now }
    ensures { Processed bits.now sizes.now set.now rank.now threshold
        kind_bits.new order.new }
{
    let count = find_kinds(bits, sizes, set, kind_of, kind_sizes, kind_bits, finals);
    merge_in_place(
        &mut finals[..count],
        &mut kind_sizes[..count],
        &mut kind_bits[..4 * count],
        threshold,
    );
    divide(finals, kind_of, set, rank, kind_sizes, order);
}

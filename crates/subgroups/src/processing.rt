// An entries-aware set, divided and merged in tables of its own.
ghost use Rattle.std.specs.Prelude.{length};
ghost use Rattle.subgroups.specs.Finding.{Members};
ghost use Rattle.subgroups.specs.Merged.{Ranked, ProcessRoom, Processed};

use crate::stages::run_stages;

// Divides an entries-aware set by equal entry bits, merges the subgroups, and lists the positions by the subgroup that each ends in, subgroups by the
// lowest rank in them. The rows are those of the subgroups' united bits. The other tables are gone before the subgroups have their turns, which need
// room on the stack themselves.
pub fn process_entries_aware_group(
    bits: &[u64],
    sizes: &[u64],
    set: &[u32],
    rank: &[u32],
    threshold: f64,
    kind_bits: &mut [u64],
    order: &mut [u32],
)
    requires { Members bits.now sizes.now set.now × ProcessRoom (length set.now) kind_bits.old order.old
        × Ranked rank.now set.now }
    ensures { Processed bits.now sizes.now set.now rank.now threshold
        kind_bits.new order.new }
{
    let count = set.len();
    let mut kind_of = [0u32; 4096];
    let mut kind_sizes = [0u64; 4096];
    let mut finals = [0u32; 4096];
    run_stages(
        bits,
        sizes,
        set,
        rank,
        threshold,
        &mut kind_of[..count],
        &mut kind_sizes,
        kind_bits,
        &mut finals,
        order,
    );
}

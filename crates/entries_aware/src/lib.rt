// An entries-aware set turned into chunks: its subgroups are items, one after the other by the smallest id in them.
#![tactic(auto)]

ghost use Rattle.std.specs.Prelude.{◌≡◌, ◌*◌, ◌≤◌, length};
ghost use Rattle.grouping.specs.Subgroups.{divided_items};
ghost use Rattle.settling.specs.Traversal.{in_turn};
ghost use Rattle.running.specs.Turns.{SetTurning, SetTurned};
ghost use Rattle.entries_aware.specs.Divided.{DividedReady};
ghost use Rattle.emitting.specs.Emitted.{work, SameAreas};

use bitset::table::row;
use emitting::ChunkAreas;
use emitting::emit::Head;
use ids::parts::Ids;
use index::ChunkIdx;
use items::convert::{Limits, convert_item_to_chunks};
use matching::matched::run_end;
use options::Settings;
use sets::built::store_starts;
use subgroups::processing::process_entries_aware_group;

// The subgroups of a set, which stand in runs of one number each, in the order of their turns.
fn convert_divided(
    settings: Settings,
    group: u32,
    name: u32,
    set: &[u32],
    divided: &[u32],
    kind_bits: &[u64],
    sizes: &[u64],
    bits: &[u64],
    ids: &Ids,
    rank: &[u32],
    number: ChunkIdx,
    at: usize,
    members: &mut [u32],
    areas: &mut ChunkAreas,
) -> usize
    requires { DividedReady (record {
      bytes = ids.now.bytes.now;
      offsets = ids.now.offsets.now;
      sizes = sizes.now;
      rank = rank.now;
    }) bits.now number.0 at (work areas.old) set.now settings.threshold kind_bits.now divided.now members.old }
    ensures emitted { SetTurned (record {
      bytes = ids.now.bytes.now;
      offsets = ids.now.offsets.now;
      sizes = sizes.now;
      rank = rank.now;
    }) bits.now set.now
        (λ tree places. in_turn tree (divided_items settings group name tree places)) number.0 at result (work areas.old) (work areas.new) }
    ensures same { SameAreas areas.old areas.new }
{
    let mut list = [0u32; 4096];
    let mut made = 0;
    let mut from = 0;
    while from < divided.len() {
        let to = run_end(divided, from);
        let count = to - from;
        let own = row(kind_bits, (divided[from] / 4096) as usize);
        let head = Head {
            group,
            name,
            entries_aware: true,
            bits: own,
        };
        let maximum = settings.max_size;
        let limits = Limits {
            minimum: settings.min_size,
            maximum,
        };
        store_starts(&divided[from..to], set, &mut list[..count]);
        // The places of records are below this, so that they can be counted on.
        let _room = areas.room();
        let more = convert_item_to_chunks(
            head,
            limits,
            &list[..count],
            sizes,
            bits,
            ids,
            rank,
            ChunkIdx(number.0 + made as u32),
            at + made,
            members,
            areas,
        );
        made += more;
        from = to;
    }
    made
}

// A set of at most N modules, with a table of N positions and one of N kinds' bits, which are 4 * N = WORDS words.
fn convert_within<const N: usize, const WORDS: usize>(
    settings: Settings,
    group: u32,
    name: u32,
    set: &[u32],
    n: usize,
    sizes: &[u64],
    bits: &[u64],
    ids: &Ids,
    rank: &[u32],
    number: ChunkIdx,
    at: usize,
    scratch: &mut [u32],
    areas: &mut ChunkAreas,
) -> usize
    requires set_turning { SetTurning (record {
      bytes = ids.now.bytes.now;
      offsets = ids.now.offsets.now;
      sizes = sizes.now;
      rank = rank.now;
    }) bits.now number.0 at (work areas.old) set.now }
    requires tables { (length set.now ≤ N) × (N ≤ 4096) × (WORDS ≡ 4 * N) }
    requires set_len_bound { (length set.now ≤ n) × (n ≤ 4096) × (3 * n ≤ length scratch.old) }
    ensures set_turned { SetTurned (record {
      bytes = ids.now.bytes.now;
      offsets = ids.now.offsets.now;
      sizes = sizes.now;
      rank = rank.now;
    }) bits.now set.now
        (λ tree places. in_turn tree (divided_items settings group name tree places)) number.0 at result (work areas.old) (work areas.new) }
    ensures scratch_len_unchanged { length scratch.new ≡ length scratch.old }
    ensures same { SameAreas areas.old areas.new }
{
    let count = set.len();
    let mut kind_bits = [0u64; WORDS];
    let mut divided = [0u32; N];
    process_entries_aware_group(
        bits,
        sizes,
        set,
        rank,
        settings.threshold,
        &mut kind_bits,
        &mut divided[..count],
    );
    let end = 2 * n;
    convert_divided(
        settings,
        group,
        name,
        set,
        &divided[..count],
        &kind_bits,
        sizes,
        bits,
        ids,
        rank,
        number,
        at,
        &mut scratch[n..end],
        areas,
    )
}

// Divides an entries-aware set, merges its subgroups, and turns each of them into chunks. What is left of an item stands in the second part of
// scratch. Few modules get short tables, which cost less to clear.
pub fn convert_subgroups(
    settings: Settings,
    group: u32,
    name: u32,
    set: &[u32],
    n: usize,
    sizes: &[u64],
    bits: &[u64],
    ids: &Ids,
    rank: &[u32],
    number: ChunkIdx,
    at: usize,
    scratch: &mut [u32],
    areas: &mut ChunkAreas,
) -> usize
    requires set_turning { SetTurning (record {
      bytes = ids.now.bytes.now;
      offsets = ids.now.offsets.now;
      sizes = sizes.now;
      rank = rank.now;
    }) bits.now number.0 at (work areas.old) set.now }
    requires set_len_bound { (length set.now ≤ n) × (n ≤ 4096) × (3 * n ≤ length scratch.old) }
    ensures set_turned { SetTurned (record {
      bytes = ids.now.bytes.now;
      offsets = ids.now.offsets.now;
      sizes = sizes.now;
      rank = rank.now;
    }) bits.now set.now
        (λ tree places. in_turn tree (divided_items settings group name tree places)) number.0 at result (work areas.old) (work areas.new) }
    ensures scratch_len_unchanged { length scratch.new ≡ length scratch.old }
    ensures same { SameAreas areas.old areas.new }
{
    if set.len() <= 1024 {
        return convert_within::<1024, 4096>(
            settings, group, name, set, n, sizes, bits, ids, rank, number, at, scratch, areas,
        );
    }
    convert_within::<4096, 16384>(
        settings, group, name, set, n, sizes, bits, ids, rank, number, at, scratch, areas,
    )
}

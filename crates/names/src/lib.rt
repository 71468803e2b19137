// The sets of one group turned into chunks, name by name.
#![tactic(auto)]

ghost use Rattle.std.specs.Prelude.{◌≡◌, ◌*◌, ◌≤◌, length};
ghost use Rattle.forget.specs.Unfollowed.{unfollowed};
ghost use Rattle.grouping.specs.WorkList.{items_of_set};
ghost use Rattle.settling.specs.Traversal.{in_turn};
ghost use Rattle.closed.specs.Closed.{Closed};
ghost use Rattle.names.specs.Turn.{SetOffered, SetTaken, NamesTurning, NamesRoom, NamesTurned};
ghost use Rattle.emitting.specs.Emitted.{work, SameAreas};

use bitset::entries::BitSet;
use closed::{build_left, can_close, close_set};
use emitting::ChunkAreas;
use emitting::emit::Head;
use entries_aware::convert_subgroups;
use ids::parts::Ids;
use index::ChunkIdx;
use items::convert::{Limits, convert_item_to_chunks};
use matching::matched::run_end;
use options::Settings;
use records::Records;

// One set turned into chunks: an item, or its subgroups. A set that is one item may lack modules that have a chunk.
fn convert_set(
    settings: Settings,
    group: u32,
    name: u32,
    set: &[u32],
    n: usize,
    sizes: &[u64],
    bits: &[u64],
    ids: &Ids,
    rank: &[u32],
    number: ChunkIdx,
    at: usize,
    scratch: &mut [u32],
    areas: &mut ChunkAreas,
) -> usize
    requires set_offered { SetOffered (record {
      bytes = ids.now.bytes.now;
      offsets = ids.now.offsets.now;
      sizes = sizes.now;
      rank = rank.now;
    }) bits.now settings.entries_aware number.0 at (work areas.old) set.now }
    requires set_len_bound { (length set.now ≤ n) × (n ≤ 4096) × (3 * n ≤ length scratch.old) }
    ensures set_taken { SetTaken (record {
      bytes = ids.now.bytes.now;
      offsets = ids.now.offsets.now;
      sizes = sizes.now;
      rank = rank.now;
    }) bits.now settings.entries_aware set.now
        (λ tree places. in_turn tree (items_of_set settings.entries_aware settings group name tree places)) number.0 at result (work areas.old) (work areas.new) }
    ensures scratch_len_unchanged { length scratch.new ≡ length scratch.old }
    ensures same { SameAreas areas.old areas.new }
{
    if settings.entries_aware {
        return convert_subgroups(
            settings, group, name, set, n, sizes, bits, ids, rank, number, at, scratch, areas,
        );
    }
    let maximum = settings.max_size;
    let limits = Limits {
        minimum: settings.min_size,
        maximum,
    };
    let head = Head {
        group,
        name,
        entries_aware: false,
        bits: BitSet::new(),
    };
    convert_item_to_chunks(
        head,
        limits,
        set,
        sizes,
        bits,
        ids,
        rank,
        number,
        at,
        &mut scratch[n..2 * n],
        areas,
    )
}

// The sets of a group, whose matched modules stand in runs of one name each. The list of a walk stands in the first part of scratch; walks pass over
// sets that are closed, of this group and of those before it.
pub fn convert_names(
    settings: Settings,
    group: u32,
    matched: &[u32],
    n: usize,
    flags: &[u8],
    records: &Records,
    order: &[u32],
    place: &[u32],
    sizes: &[u64],
    bits: &[u64],
    ids: &Ids,
    rank: &[u32],
    number: ChunkIdx,
    at: usize,
    closed: &mut [u8],
    marks: &mut [u8],
    followed: &mut [u8],
    set: &mut [u32],
    scratch: &mut [u32],
    areas: &mut ChunkAreas,
) -> usize
    requires names_turning { NamesTurning (record {
      bytes = ids.now.bytes.now;
      offsets = ids.now.offsets.now;
      sizes = sizes.now;
      rank = rank.now;
    }) (record {
      flags = flags.now;
      first = records.now.first.now;
      dependency = records.now.dependency.now;
      next = records.now.next.now;
      order = order.now;
    }) bits.now settings group matched.now number.0 at (work areas.old) }
    requires names_room { NamesRoom n flags.now order.now place.now marks.old followed.old set.old scratch.old
        × Closed flags.now records.now.first.now records.now.dependency.now records.now.next.now closed.old areas.old.chunk_of.now }
    ensures names_turned { NamesTurned (record {
      bytes = ids.now.bytes.now;
      offsets = ids.now.offsets.now;
      sizes = sizes.now;
      rank = rank.now;
    }) (record {
      flags = flags.now;
      first = records.now.first.now;
      dependency = records.now.dependency.now;
      next = records.now.next.now;
      order = order.now;
    }) bits.now settings group matched.now number.0 at result (work areas.old) (work areas.new) }
    ensures marks_len_unchanged { (length marks.new ≡ length marks.old) × (length set.new ≡ length set.old)
        × (length scratch.new ≡ length scratch.old) × (followed.new ≡ unfollowed)
        × Closed flags.now records.now.first.now records.now.dependency.now records.now.next.now closed.new areas.new.chunk_of.now }
    ensures same { SameAreas areas.old areas.new }
{
    marks.fill(0);
    let closing = can_close(settings);
    let mut made = 0;
    let mut from = 0;
    while from < matched.len() {
        let to = run_end(matched, from);
        let count = build_left(
            closing,
            settings.recursive,
            flags,
            closed,
            records,
            order,
            place,
            &matched[from..to],
            marks,
            &mut scratch[..n],
            followed,
            set,
        );
        // The places of records are below this, so that they can be counted on.
        let _room = areas.room();
        made += convert_set(
            settings,
            group,
            matched[from] / 4096,
            &set[..count],
            n,
            sizes,
            bits,
            ids,
            rank,
            ChunkIdx(number.0 + made as u32),
            at + made,
            scratch,
            areas,
        );
        let chunk_of = &mut *areas.chunk_of;
        close_set(closing, &set[..count], chunk_of, closed);
        from = to;
    }
    made
}

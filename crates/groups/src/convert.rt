// Each group's matched modules are found when its turn comes, and its sets turned into chunks.
ghost use Rattle.std.specs.Prelude.{◌≡◌, ◌*◌, ◌≤◌, length};
ghost use Rattle.forget.specs.Unfollowed.{unfollowed};
ghost use Rattle.closed.specs.Closed.{Closed};
ghost use Rattle.names.specs.Turn.{NamesRoom};
ghost use Rattle.groups.specs.Turn.{GroupTurning, GroupTurned, GroupsTurning, GroupsTurned};
ghost use Rattle.emitting.specs.Emitted.{work, SameAreas};

use emitting::ChunkAreas;
use ids::parts::Ids;
use index::ChunkIdx;
use matching::matched::match_group;
use names::convert_names;
use options::Settings;
use records::Records;
use sets::gathered::store_places;

// One group turned into chunks. Its matched modules are written to `matched`.
fn convert_group(
    settings: Settings,
    group: u32,
    answers: &[u32],
    n: usize,
    flags: &[u8],
    sizes: &[u64],
    shares: &[u32],
    tags: &[u64],
    bits: &[u64],
    ids: &Ids,
    records: &Records,
    order: &[u32],
    place: &[u32],
    rank: &[u32],
    number: ChunkIdx,
    at: usize,
    closed: &mut [u8],
    marks: &mut [u8],
    followed: &mut [u8],
    set: &mut [u32],
    matched: &mut [u32],
    scratch: &mut [u32],
    areas: &mut ChunkAreas,
) -> usize
    requires group_turning { GroupTurning (record { bytes = ids.now.bytes.now; offsets = ids.now.offsets.now; sizes = sizes.now; rank = rank.now })
        (record { flags = flags.now; first = records.now.first.now; dependency = records.now.dependency.now; next = records.now.next.now; order = order.now }) bits.now
        settings group (record { answers = answers.now; tags = tags.now; shares = shares.now }) number.0 at
        (work areas.old) }
    requires names_room { NamesRoom n flags.now order.now place.now marks.old followed.old set.old scratch.old
        × (length order.now ≤ length matched.old)
        × Closed flags.now records.now.first.now records.now.dependency.now records.now.next.now closed.old areas.old.chunk_of.now }
    ensures group_turned { GroupTurned (record {
      bytes = ids.now.bytes.now;
      offsets = ids.now.offsets.now;
      sizes = sizes.now;
      rank = rank.now;
    })
        (record {
          flags = flags.now;
          first = records.now.first.now;
          dependency = records.now.dependency.now;
          next = records.now.next.now;
          order = order.now;
        }) bits.now
        settings group (record { answers = answers.now; tags = tags.now; shares = shares.now }) number.0 at result
        (work areas.old)
        (work areas.new) }
    ensures marks_len_unchanged { (length marks.new ≡ length marks.old) × (length set.new ≡ length set.old)
        × (length matched.new ≡ length matched.old)
        × (length scratch.new ≡ length scratch.old) × (followed.new ≡ unfollowed)
        × Closed flags.now records.now.first.now records.now.dependency.now records.now.next.now closed.new areas.new.chunk_of.now }
    ensures same { SameAreas areas.old areas.new }
{
    let filter = settings.filter;
    let count = match_group(filter, answers, tags, sizes, shares, order, matched);
    convert_names(
        settings,
        group,
        &matched[..count],
        n,
        flags,
        records,
        order,
        place,
        sizes,
        bits,
        ids,
        rank,
        number,
        at,
        closed,
        marks,
        followed,
        set,
        scratch,
        areas,
    )
}

// All groups, in the order of their turns. A set that one group closed is passed over by the walks of those after it.
pub fn convert_groups_to_chunks(
    settings: [Settings; 64],
    turns: &[u32],
    answers: &[u32],
    n: usize,
    flags: &[u8],
    sizes: &[u64],
    shares: &[u32],
    tags: &[u64],
    bits: &[u64],
    ids: &Ids,
    records: &Records,
    order: &[u32],
    rank: &[u32],
    number: ChunkIdx,
    at: usize,
    scratch: &mut [u32],
    areas: &mut ChunkAreas,
) -> usize
    requires groups_turning { GroupsTurning (record { bytes = ids.now.bytes.now; offsets = ids.now.offsets.now; sizes = sizes.now; rank = rank.now })
        (record { flags = flags.now; first = records.now.first.now; dependency = records.now.dependency.now; next = records.now.next.now; order = order.now }) bits.now
        settings turns.now (record { answers = answers.now; tags = tags.now; shares = shares.now }) n number.0 at
        (work areas.old) }
    requires n_in_bounds { 3 * n ≤ length scratch.old }
    ensures groups_turned { GroupsTurned (record {
      bytes = ids.now.bytes.now;
      offsets = ids.now.offsets.now;
      sizes = sizes.now;
      rank = rank.now;
    })
        (record {
          flags = flags.now;
          first = records.now.first.now;
          dependency = records.now.dependency.now;
          next = records.now.next.now;
          order = order.now;
        }) bits.now
        settings turns.now (record {
          answers = answers.now;
          tags = tags.now;
          shares = shares.now;
        }) n number.0 at result
        (work areas.old)
        (work areas.new) }
    ensures scratch_len_unchanged { length scratch.new ≡ length scratch.old }
    ensures same { SameAreas areas.old areas.new }
{
    let mut place = [0u32; 4096];
    store_places(order, &mut place);
    let mut closed = [0u8; 4096];
    closed[..n].copy_from_slice(flags);
    let mut marks = [0u8; 4096];
    let mut followed = [0u8; 65536];
    let mut set = [0u32; 4096];
    let mut matched = [0u32; 4096];
    let mut made = 0;
    for turn in turns {
        let g = *turn as usize;
        let from = g * n;
        let to = from + n;
        let own = settings[g];
        // The places of records are below this, so that they can be counted on.
        let _room = areas.room();
        made += convert_group(
            own,
            *turn,
            &answers[from..to],
            n,
            flags,
            sizes,
            shares,
            tags,
            bits,
            ids,
            records,
            order,
            &place,
            rank,
            ChunkIdx(number.0 + made as u32),
            at + made,
            &mut closed[..n],
            &mut marks[..n],
            &mut followed,
            &mut set,
            &mut matched,
            scratch,
            areas,
        );
    }
    made
}

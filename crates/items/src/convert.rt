// An item turned into chunks.
ghost use Rattle.std.specs.Prelude.{◌≡◌, length};
ghost use Rattle.left.specs.Untaken.{untaken, Listed};
ghost use Rattle.pieces.specs.Chunks.{Converted};
ghost use Rattle.items.specs.Turn.{in_pieces, over_limit, emitted_within, emitted_from, ItemReady, Totalled};
ghost use Rattle.emitting.specs.Emitted.{work, SameAreas};

use cut::sizes::total_size;
use emitting::ChunkAreas;
use emitting::emit::{Head, emit_chunk};
use ids::parts::Ids;
use index::ChunkIdx;
use left::keep_left;
use oversized::marks::WITHIN;
use oversized::order::in_id_order;
use pieces::emit_oversized;

// The two limits in force for the size of a chunk.
#[derive(Clone, Copy)]
pub struct Limits {
    pub minimum: f64,
    pub maximum: Option<f64>,
}

// The maximum, if the size is strictly above it.
fn over_limit(maximum: Option<f64>, size: f64) -> Option<f64>
    ensures { result ≡ over_limit maximum size }
{
    maximum.filter(|limit| *limit < size)
}

// Puts modules above the maximum in id order, and emits them in pieces.
fn emit_over_maximum(
    head: Head,
    total: f64,
    minimum: f64,
    maximum: f64,
    sizes: &[u64],
    bits: &[u64],
    ids: &Ids,
    rank: &[u32],
    number: ChunkIdx,
    at: usize,
    members: &mut [u32],
    areas: &mut ChunkAreas,
) -> usize
    requires item_ready { ItemReady (record {
      bytes = ids.now.bytes.now;
      offsets = ids.now.offsets.now;
      sizes = sizes.now;
      rank = rank.now;
    }) bits.now members.old (work areas.old) number.0 at }
    requires totalled { Totalled sizes.now members.old total }
    ensures emitted { Converted (in_pieces (record {
      bytes = ids.now.bytes.now;
      offsets = ids.now.offsets.now;
      sizes = sizes.now;
      rank = rank.now;
    }) head minimum maximum members.old) bits.now number.0 at result (work areas.old) (work areas.new) }
    ensures same { SameAreas areas.old areas.new }
{
    in_id_order(rank, members);
    emit_oversized(
        head, total, minimum, maximum, sizes, bits, ids, members, number, at, areas,
    )
}

// Emits modules that are not below the minimum: whole within the maximum, else in pieces.
fn emit_item(
    head: Head,
    total: f64,
    limits: Limits,
    sizes: &[u64],
    bits: &[u64],
    ids: &Ids,
    rank: &[u32],
    number: ChunkIdx,
    at: usize,
    members: &mut [u32],
    areas: &mut ChunkAreas,
) -> usize
    requires item_ready { ItemReady (record {
      bytes = ids.now.bytes.now;
      offsets = ids.now.offsets.now;
      sizes = sizes.now;
      rank = rank.now;
    }) bits.now members.old (work areas.old) number.0 at }
    requires totalled { Totalled sizes.now members.old total }
    ensures emitted { Converted (emitted_within limits.maximum (record {
      bytes = ids.now.bytes.now;
      offsets = ids.now.offsets.now;
      sizes = sizes.now;
      rank = rank.now;
    }) head limits.minimum members.old) bits.now number.0 at result (work areas.old) (work areas.new) }
    ensures same { SameAreas areas.old areas.new }
{
    let minimum = limits.minimum;
    let Some(maximum) = over_limit(limits.maximum, total) else {
        emit_chunk(head, members, total, WITHIN, bits, number, at, areas);
        return 1;
    };
    // There are two calls, each with a head of its kind, so that the compiler gives the tables of an item that is cut a frame of their own: an item
    // that is emitted whole does not pay for them.
    let own = head.bits;
    if head.entries_aware {
        let aware = Head {
            group: head.group,
            name: head.name,
            entries_aware: true,
            bits: own,
        };
        return emit_over_maximum(
            aware, total, minimum, maximum, sizes, bits, ids, rank, number, at, members, areas,
        );
    }
    let plain = Head {
        group: head.group,
        name: head.name,
        entries_aware: false,
        bits: own,
    };
    emit_over_maximum(
        plain, total, minimum, maximum, sizes, bits, ids, rank, number, at, members, areas,
    )
}

// Turns what is left of an item into chunks. Answers how many.
pub fn convert_item_to_chunks(
    head: Head,
    limits: Limits,
    list: &[u32],
    sizes: &[u64],
    bits: &[u64],
    ids: &Ids,
    rank: &[u32],
    number: ChunkIdx,
    at: usize,
    members: &mut [u32],
    areas: &mut ChunkAreas,
) -> usize
    requires item_ready { ItemReady (record {
      bytes = ids.now.bytes.now;
      offsets = ids.now.offsets.now;
      sizes = sizes.now;
      rank = rank.now;
    }) bits.now (untaken areas.old.chunk_of.now list.now) (work areas.old) number.0 at }
    requires listed { Listed areas.old.chunk_of.now list.now members.old }
    ensures converted { Converted (emitted_from (record {
      bytes = ids.now.bytes.now;
      offsets = ids.now.offsets.now;
      sizes = sizes.now;
      rank = rank.now;
    }) head limits (untaken areas.old.chunk_of.now list.now)) bits.now number.0 at result (work areas.old) (work areas.new) }
    ensures members_len_unchanged { length members.new ≡ length members.old }
    ensures same { SameAreas areas.old areas.new }
{
    let chunk_of = &mut *areas.chunk_of;
    let count = keep_left(list, chunk_of, members);
    if count == 0 {
        return 0;
    }
    let total = total_size(sizes, &members[..count]);
    if total < limits.minimum {
        return 0;
    }
    emit_item(
        head,
        total,
        limits,
        sizes,
        bits,
        ids,
        rank,
        number,
        at,
        &mut members[..count],
        areas,
    )
}

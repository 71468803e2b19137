// One chunk emitted, and the pieces of an item emitted one after the other.
ghost use Rattle.std.specs.Prelude.{◌≡◌, ◌+◌, ◌<◌, ◌^◌, length};
ghost use Rattle.emitting.specs.Emitted.{bits_of_chunk, with_chunk, with_chunks, parts_from, emissions, HasBits, Room, Parts, work, SameAreas};

use crate::ChunkAreas;
use crate::members::{add_modules_to_chunk, union_of};
use crate::records::store_fields;
use bitset::entries::BitSet;
use bitset::table::store_row;
use index::ChunkIdx;

// What all chunks of an item share. An entries-aware item has its subgroup's bits.
#[derive(Clone, Copy)]
pub struct Head {
    pub group: u32,
    pub name: u32,
    pub entries_aware: bool,
    pub bits: BitSet,
}

// The entry bits of a chunk: an entries-aware item keeps those of its subgroup.
fn chunk_bits(head: Head, bits: &[u64], members: &[u32]) -> BitSet
    requires { HasBits bits.now members.now }
    ensures { result ≡ bits_of_chunk bits.now head members.now }
{
    if head.entries_aware {
        return head.bits;
    }
    union_of(bits, members)
}

// Emits one chunk: its modules get its number, and its record is written at the place `at`.
pub fn emit_chunk(
    head: Head,
    members: &[u32],
    size: f64,
    mark: u8,
    bits: &[u64],
    number: ChunkIdx,
    at: usize,
    areas: &mut ChunkAreas,
)
    requires room { Room bits.now members.now (work areas.old) at }
    requires number_bound { number.0 + 1 < 2 ^ 32 }
    ensures emitted { work areas.new ≡ with_chunk bits.now number.0 at (record { head = head; modules = members.now; size = size; mark = mark }) (work areas.old) }
    ensures same { SameAreas areas.old areas.new }
{
    let own = chunk_bits(head, bits, members);
    add_modules_to_chunk(members, areas.chunk_of, number.0 + 1);
    store_fields(
        areas.group_of,
        areas.name_of,
        areas.size_of,
        areas.mark_of,
        at,
        head.group,
        head.name,
        size,
        mark,
    );
    store_row(areas.bits_of, at, own);
}

// Emits the parts of a list that begin at `starts`, from its end to its start.
pub fn emit_parts(
    head: Head,
    members: &[u32],
    starts: &[u32],
    sizes: &[f64],
    marks: &[u8],
    bits: &[u64],
    number: ChunkIdx,
    at: usize,
    areas: &mut ChunkAreas,
)
    requires parts { Parts bits.now members.now starts.now sizes.now marks.now (work areas.old) at }
    requires starts_bound { number.0 + length starts.now < 2 ^ 32 }
    ensures emitted { work areas.new ≡ with_chunks bits.now number.0 at
        (emissions head (parts_from members.now (length members.now) starts.now)
        sizes.now marks.now) (work areas.old) }
    ensures same { SameAreas areas.old areas.new }
{
    let mut end = members.len();
    for j in 0..starts.len() {
        let start = starts[j] as usize;
        let next = ChunkIdx(number.0 + j as u32);
        emit_chunk(
            head,
            &members[start..end],
            sizes[j],
            marks[j],
            bits,
            next,
            at + j,
            areas,
        );
        end = start;
    }
}

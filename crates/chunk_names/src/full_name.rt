// The full name of an entries-aware chunk, as much of it as an area has room for.
ghost use Rattle.std.specs.Prelude.{◌≤◌, ◌<◌, length};
ghost use Rattle.name_tables.specs.Names.{names_of};
ghost use Rattle.chunk_names.specs.Name.{separated, added, entry_parts, full_name};
ghost use Rattle.chunk_names.specs.Append.{Appended};
ghost use Rattle.chunk_names.specs.Tables.{EntryTable};

use crate::append::append;
use bitset::entries::BitSet;

// The byte between two names.
pub const SEPARATOR: u8 = b'~';

// Puts an entry's name behind a separator; an empty one is passed over.
fn append_entry_name(area: &mut [u8], at: usize, name: &[u8]) -> usize
    requires { at ≤ length area.old }
    ensures { Appended area.old at (separated name.now) result area.new }
{
    if name.len() == 0 {
        return at;
    }
    let separator = [SEPARATOR; 1];
    let behind = append(area, at, &separator);
    append(area, behind, name)
}

// What one entry adds: nothing if the chunk doesn't have its bit.
fn append_entry(
    area: &mut [u8],
    at: usize,
    bits: BitSet,
    entry: usize,
    e: usize,
    entry_names: &[u8],
    entry_offsets: &[u32],
) -> usize
    requires { (at ≤ length area.old) × (entry < e) × EntryTable e entry_names.now entry_offsets.now }
    ensures { Appended area.old at
        (added bits (names_of e entry_names.now entry_offsets.now) entry) result area.new }
{
    if bits.has_bit(entry) {
        return append_entry_name(
            area,
            at,
            name_tables::name_at(entry_names, entry_offsets, entry),
        );
    }
    at
}

// What the entries add, in ascending order. Bits at or above E are never looked at.
fn append_entries(
    area: &mut [u8],
    from: usize,
    bits: BitSet,
    e: usize,
    entry_names: &[u8],
    entry_offsets: &[u32],
) -> usize
    requires { (from ≤ length area.old) × EntryTable e entry_names.now entry_offsets.now }
    ensures { Appended area.old from
        (entry_parts bits (names_of e entry_names.now entry_offsets.now)) result area.new }
{
    let mut at = from;
    for entry in 0..e {
        at = append_entry(area, at, bits, entry, e, entry_names, entry_offsets);
    }
    at
}

// The group's name, then the parts of the chunk's entries.
pub fn write_full_name(
    area: &mut [u8],
    group: &[u8],
    bits: BitSet,
    e: usize,
    entry_names: &[u8],
    entry_offsets: &[u32],
) -> usize
    requires { EntryTable e entry_names.now entry_offsets.now }
    ensures { Appended area.old 0
        (full_name group.now bits (names_of e entry_names.now entry_offsets.now)) result area.new }
{
    let behind = append(area, 0, group);
    append_entries(area, behind, bits, e, entry_names, entry_offsets)
}

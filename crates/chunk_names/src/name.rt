// The name of a chunk, written to the front of an area.
ghost use Rattle.std.specs.Prelude.{◌<◌, length};
ghost use Rattle.name_tables.specs.Names.{names_of};
ghost use Rattle.chunk_names.specs.Name.{truncated_len, shortened, entries_aware_name, full_name, name_of};
ghost use Rattle.chunk_names.specs.Append.{Appended};
ghost use Rattle.chunk_names.specs.Tables.{EntryTable};

use crate::append::append;
use crate::full_name::{SEPARATOR, write_full_name};
use bitset::entries::BitSet;

// The longest name of an entries-aware chunk, in bytes.
pub const MAX_CHUNK_NAME_LEN: usize = 100;

// The bytes of a hash that a name shows.
pub const HASH_DISPLAY_LEN: usize = 8;

// Where a longer full name is cut, or further back.
const TRUNCATED_LEN: usize = 91;

// A full name that is too long, cut at the start of a character, then a separator and the hash.
fn write_shortened(front: &[u8], hash: &[u8], name: &mut [u8]) -> usize
    requires { truncated_len < length front.now }
    ensures { Appended name.old 0 (shortened front.now hash.now) result name.new }
{
    let cut = utf8::start::start_back(front, TRUNCATED_LEN);
    let kept = append(name, 0, &front[..cut]);
    let separator = [SEPARATOR; 1];
    let behind = append(name, kept, &separator);
    append(name, behind, hash)
}

// One byte more than the longest name is enough of the full name: to see that it is too long, and to cut it.
fn write_entries_aware_name(
    group: &[u8],
    bits: BitSet,
    e: usize,
    entry_names: &[u8],
    entry_offsets: &[u32],
    hash: &[u8],
    name: &mut [u8],
) -> usize
    requires { EntryTable e entry_names.now entry_offsets.now }
    ensures { Appended name.old 0
        (entries_aware_name (full_name group.now bits (names_of e entry_names.now entry_offsets.now)) hash.now)
        result name.new }
{
    let mut front = [0u8; 101];
    let length = write_full_name(&mut front, group, bits, e, entry_names, entry_offsets);
    if length <= MAX_CHUNK_NAME_LEN {
        return append(name, 0, &front[..length]);
    }
    write_shortened(&front, hash, name)
}

// A chunk that isn't entries-aware keeps the bare name of its group.
pub fn write_name(
    entries_aware: bool,
    group: &[u8],
    bits: BitSet,
    e: usize,
    entry_names: &[u8],
    entry_offsets: &[u32],
    hash: &[u8],
    name: &mut [u8],
) -> usize
    requires { EntryTable e entry_names.now entry_offsets.now }
    ensures { Appended name.old 0
        (name_of entries_aware group.now bits (names_of e entry_names.now entry_offsets.now) hash.now)
        result name.new }
{
    if entries_aware {
        return write_entries_aware_name(group, bits, e, entry_names, entry_offsets, hash, name);
    }
    append(name, 0, group)
}

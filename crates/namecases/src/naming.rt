// name TAG K E NUMBER AWARE W0 W1 W2 W3 HASH, then K names of groups, then E names of entries
ghost use Rattle.std.specs.Prelude.{◌≤◌};

use crate::chunk::Chunk;
use crate::tables::Names;
use crate::{answers, chunk, spoiling, tables};
use listform::areas;
use textform::out;
use textform::reading::Words;
use withlines::offsets;
use withlines::with::With;

// Runs a case, given the lines before it that spoil it. Nothing if it can't be read, or is beyond the limits.
pub fn answer(tag: &[u8], mut words: Words, with: With) -> Option<()> {
    let k = words.decimal_within(4097)? as usize;
    let e = words.decimal_within(4097)? as usize;
    let chunk = chunk::read(&mut words)?;
    if !spoiling::all_known(with, k, e) || !spoiling::within_limits(with) {
        return None;
    }
    name(tag, words, with, k, e, chunk)
}

// The same once the words before HASH are read.
fn name(tag: &[u8], mut words: Words, with: With, k: usize, e: usize, chunk: Chunk) -> Option<()>
    requires { (k ≤ 4097) × (e ≤ 4097) }
{
    let mut hash = [0u8; 16384];
    let mut group_bytes = [0u8; 16384];
    let mut group_offsets = [0u32; 65540];
    let mut entry_bytes = [0u8; 16384];
    let mut entry_offsets = [0u32; 65540];
    let hashed = words.bytes(&mut hash)?;
    let grouped = tables::read(&mut words, &mut group_bytes, &mut group_offsets[1..k + 1])?;
    let entered = tables::read(&mut words, &mut entry_bytes, &mut entry_offsets[1..e + 1])?;
    if !words.ended() {
        return None;
    }
    offsets::spoil(with, b"name_offsets", &mut group_offsets[..k + 1]);
    offsets::spoil(with, b"entry_offsets", &mut entry_offsets[..e + 1]);
    out::begin(b"name", tag);
    let groups = Names {
        count: k,
        bytes: &group_bytes[..grouped],
        offsets: &group_offsets,
    };
    let entries = Names {
        count: e,
        bytes: &entry_bytes[..entered],
        offsets: &entry_offsets,
    };
    run(tag, with, groups, entries, chunk, &hash[..hashed]);
    Some(())
}

// The call and its answer. The area holds a pattern on entry.
fn run(tag: &[u8], with: With, groups: Names, entries: Names, chunk: Chunk, hash: &[u8]) {
    let mut area = [areas::BYTE; 16500];
    let answer = chunk_names::derive_entries_aware_chunk_name(
        withlines::count(with, b"k", groups.count),
        withlines::count(with, b"e", entries.count),
        groups.bytes,
        groups.lent_offsets(with, b"name_offsets"),
        entries.bytes,
        entries.lent_offsets(with, b"entry_offsets"),
        chunk.number,
        chunk.entries_aware,
        chunk.bits,
        hash,
        areas::lent(&mut area, spoiling::area(with, groups.bytes.len())),
    );
    answers::show(tag, answer, &area);
}

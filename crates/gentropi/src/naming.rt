// Chunk names for a host: entry bits as four words.
ghost use Rattle.std.specs.Prelude.{[], ◌∷◌};
ghost use Rattle.gentropi.specs.After.{NameExport};

use bitset::entries::BitSet;

#[unsafe(no_mangle)]
pub extern "C" fn gentropi_name(
    k: usize,
    e: usize,
    group_names: &[u8],
    group_offsets: &[u32],
    entry_names: &[u8],
    entry_offsets: &[u32],
    number: u32,
    entries_aware: bool,
    word0: u64,
    word1: u64,
    word2: u64,
    word3: u64,
    hash: &[u8],
    name: &mut [u8],
    length: &mut usize,
) -> u32
    ensures { NameExport (record {
      names = record {
        k = k;
        e = e;
        group_names = group_names.now;
        group_offsets = group_offsets.now;
        entry_names = entry_names.now;
        entry_offsets = entry_offsets.now;
      };
      number = number;
      entries_aware = entries_aware;
      bits = record { words = word0 ∷ word1 ∷ word2 ∷ word3 ∷ [] };
      hash = hash.now;
    }) result length.old length.new name.old name.new }
{
    let bits = BitSet {
        words: [word0, word1, word2, word3],
    };
    let answer = chunk_names::derive_entries_aware_chunk_name(
        k,
        e,
        group_names,
        group_offsets,
        entry_names,
        entry_offsets,
        number,
        entries_aware,
        bits,
        hash,
        name,
    );
    match answer {
        Err(refusal) => refusal.number(),
        Ok(written) => {
            *length = written;
            0
        }
    }
}

// The name of a chunk: its group's name, and for an entries-aware chunk the names of its entries behind it.
#![tactic(auto)]

pub mod append;
pub mod conditions;
pub mod full_name;
pub mod name;

ghost use Rattle.chunk_names.specs.Call.{NameCall};

use bitset::entries::BitSet;
use refusal::Refusal;

// The public call: writes the name of one chunk to the front of the lent area and answers its length.
pub fn derive_entries_aware_chunk_name(
    k: usize,
    e: usize,
    group_names: &[u8],
    group_offsets: &[u32],
    entry_names: &[u8],
    entry_offsets: &[u32],
    number: u32,
    entries_aware: bool,
    bits: BitSet,
    hash: &[u8],
    area: &mut [u8],
) -> Result<usize, Refusal>
    ensures { NameCall (record {
      names = record {
        k = k;
        e = e;
        group_names = group_names.now;
        group_offsets = group_offsets.now;
        entry_names = entry_names.now;
        entry_offsets = entry_offsets.now;
      };
      number = number;
      entries_aware = entries_aware;
      bits = bits;
      hash = hash.now;
    }) result area.old area.new }
{
    conditions::table_number(k, e, group_names, group_offsets, entry_names, entry_offsets)?;
    conditions::chunk_number(
        k,
        e,
        group_names,
        group_offsets,
        entry_names,
        entry_offsets,
        number,
        hash,
        area.len(),
    )?;
    let group = name_tables::name_at(group_names, group_offsets, number as usize);
    Ok(name::write_name(
        entries_aware,
        group,
        bits,
        e,
        entry_names,
        entry_offsets,
        hash,
        area,
    ))
}

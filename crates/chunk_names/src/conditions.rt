// The conditions that a name call tests, in their order.
ghost use Rattle.std.specs.Prelude.{◌≡◌};
ghost use Rattle.refusal.specs.Answers.{number_or_zero};
ghost use Rattle.refusal.specs.Outcome.{first_number};
ghost use Rattle.name_tables.specs.Names.{NameTable};
ghost use Rattle.chunk_names.specs.Conditions.{any_high, bad_hash, table_tests, chunk_tests};

use crate::name::{HASH_DISPLAY_LEN, MAX_CHUNK_NAME_LEN};
use refusal::Refusal;

// Refusals 1, 2 and 3 over the two tables of names.
pub fn table_number(
    k: usize,
    e: usize,
    group_names: &[u8],
    group_offsets: &[u32],
    entry_names: &[u8],
    entry_offsets: &[u32],
) -> Result<(), Refusal>
    ensures { number_or_zero result ≡ first_number (table_tests (record {
      k = k;
      e = e;
      group_names = group_names.now;
      group_offsets = group_offsets.now;
      entry_names = entry_names.now;
      entry_offsets = entry_offsets.now;
    })) }
{
    if refusal::NAME_LIMIT < k {
        return Err(Refusal::Count);
    }
    if refusal::ENTRY_LIMIT < e {
        return Err(Refusal::Count);
    }
    if group_offsets.len() != k + 1 {
        return Err(Refusal::Length);
    }
    if entry_offsets.len() != e + 1 {
        return Err(Refusal::Length);
    }
    if ids::offsets::bad_offsets(group_names.len(), group_names.len(), group_offsets) {
        return Err(Refusal::Id);
    }
    if ids::offsets::bad_offsets(entry_names.len(), entry_names.len(), entry_offsets) {
        return Err(Refusal::Id);
    }
    Ok(())
}

// A byte of 128 or more.
fn any_high(bytes: &[u8]) -> bool
    ensures { result ≡ any_high bytes.now }
{
    bytes.iter().any(|byte| 128 <= *byte)
}

// Refusal 16: the hash isn't eight bytes below 128.
fn bad_hash(hash: &[u8]) -> bool
    ensures { result ≡ bad_hash hash.now }
{
    hash.len() != HASH_DISPLAY_LEN || any_high(hash)
}

// Refusals 10, 12, 14, 15 and 16 where the tables pass; room is the length of the name area.
pub fn chunk_number(
    k: usize,
    e: usize,
    group_names: &[u8],
    group_offsets: &[u32],
    entry_names: &[u8],
    entry_offsets: &[u32],
    number: u32,
    hash: &[u8],
    room: usize,
) -> Result<(), Refusal>
    requires { NameTable k group_names.now group_offsets.now × NameTable e entry_names.now entry_offsets.now }
    ensures { number_or_zero result ≡ first_number (chunk_tests (record {
      k = k;
      e = e;
      group_names = group_names.now;
      group_offsets = group_offsets.now;
      entry_names = entry_names.now;
      entry_offsets = entry_offsets.now;
    }) number hash.now room) }
{
    if k <= number as usize {
        return Err(Refusal::Number);
    }
    if room < MAX_CHUNK_NAME_LEN {
        return Err(Refusal::Area);
    }
    if room < name_tables::name_at(group_names, group_offsets, number as usize).len() {
        return Err(Refusal::Area);
    }
    if name_tables::conditions::any_not_utf8(k, group_names, group_offsets) {
        return Err(Refusal::Utf8);
    }
    if name_tables::conditions::any_not_utf8(e, entry_names, entry_offsets) {
        return Err(Refusal::Utf8);
    }
    if name_tables::conditions::unordered_names(k, group_names, group_offsets) {
        return Err(Refusal::NameOrder);
    }
    if bad_hash(hash) {
        return Err(Refusal::Hash);
    }
    Ok(())
}

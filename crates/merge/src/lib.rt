// The merge of small subgroups of an entries-aware set, join by join.
#![tactic(auto)]

pub mod conditions;
pub mod engine;
pub mod tables;

ghost use Rattle.std.specs.Prelude.{◌≡◌, ℕ};
ghost use Rattle.merge.specs.Call.{written, Ready, MergeCall};

use copying::copy;
use refusal::Refusal;

// The tests have passed: the tables are copied into the areas, and merged there. Entries past k stay.
fn merge_into(
    k: usize,
    sizes: &[u64],
    bits: &[u64],
    threshold: f64,
    final_numbers: &mut [u32],
    final_sizes: &mut [u64],
    final_bits: &mut [u64],
)
    requires { Ready k sizes.now bits.now (record { numbers = final_numbers.old; sizes = final_sizes.old; bits = final_bits.old }) }
    ensures { (entries : ℕ) → record {
      numbers = final_numbers.new;
      sizes = final_sizes.new;
      bits = final_bits.new;
    } ≡ written (record {
      k = k;
      entries = entries;
      sizes = sizes.now;
      bits = bits.now;
      threshold = threshold;
    }) (record {
      numbers = final_numbers.old;
      sizes = final_sizes.old;
      bits = final_bits.old;
    }) }
{
    let words = 4 * k;
    copy(sizes, &mut final_sizes[..k]);
    copy(bits, &mut final_bits[..words]);
    engine::merge_in_place(
        &mut final_numbers[..k],
        &mut final_sizes[..k],
        &mut final_bits[..words],
        threshold,
    );
}

// The public call: writes each subgroup's final number, the sizes and the bits.
pub fn merge_entries_aware_subgroups(
    k: usize,
    entries: usize,
    sizes: &[u64],
    bits: &[u64],
    threshold: f64,
    final_numbers: &mut [u32],
    final_sizes: &mut [u64],
    final_bits: &mut [u64],
) -> Result<(), Refusal>
    ensures { MergeCall (record {
      k = k;
      entries = entries;
      sizes = sizes.now;
      bits = bits.now;
      threshold = threshold;
    }) result (record {
      numbers = final_numbers.old;
      sizes = final_sizes.old;
      bits = final_bits.old;
    }) (record {
      numbers = final_numbers.new;
      sizes = final_sizes.new;
      bits = final_bits.new;
    }) }
{
    if conditions::counts_exceed(k, entries) {
        return Err(Refusal::Count);
    }
    if conditions::lengths_differ(k, sizes.len(), bits.len()) {
        return Err(Refusal::Length);
    }
    if whole::total_exceeds(sizes) {
        return Err(Refusal::Total);
    }
    if limit::is_nan(threshold) {
        return Err(Refusal::Nan);
    }
    if bitset::table::any_bit_from(bits, k, entries) {
        return Err(Refusal::Bit);
    }
    if conditions::areas_short(k, final_numbers.len(), final_sizes.len(), final_bits.len()) {
        return Err(Refusal::Area);
    }
    merge_into(
        k,
        sizes,
        bits,
        threshold,
        final_numbers,
        final_sizes,
        final_bits,
    );
    Ok(())
}

// Merge for a host.
ghost use Rattle.gentropi.specs.After.{MergeExport};

#[unsafe(no_mangle)]
pub extern "C" fn gentropi_merge(
    k: usize,
    entries: usize,
    sizes: &[u64],
    bits: &[u64],
    threshold: f64,
    final_numbers: &mut [u32],
    final_sizes: &mut [u64],
    final_bits: &mut [u64],
) -> u32
    ensures { MergeExport (record {
      k = k;
      entries = entries;
      sizes = sizes.now;
      bits = bits.now;
      threshold = threshold;
    }) result (record {
      numbers = final_numbers.old;
      sizes = final_sizes.old;
      bits = final_bits.old;
    }) (record {
      numbers = final_numbers.new;
      sizes = final_sizes.new;
      bits = final_bits.new;
    }) }
{
    let answer = merge::merge_entries_aware_subgroups(
        k,
        entries,
        sizes,
        bits,
        threshold,
        final_numbers,
        final_sizes,
        final_bits,
    );
    match answer {
        Err(refusal) => refusal.number(),
        Ok(()) => 0,
    }
}

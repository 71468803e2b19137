// Refusal 6: the sizes of the normal included modules add to more than 2^53.
ghost use Rattle.std.specs.Prelude.{◌≡◌, cond, length};
ghost use Rattle.flags.specs.Flags.{listed};
ghost use Rattle.grouping.specs.Given.{Given};
ghost use Rattle.grouping.specs.Conditions.{bad_total};
ghost use Rattle.sums.specs.HandsIn.{HandsSizes};

// What a module adds to the total.
fn listed_size(flags: u8, size: u64) -> u64
    ensures { result ≡ cond (listed flags) size 0 }
{
    if flags::is_listed(flags) { size } else { 0 }
}

// What is left below the limit is compared, so nothing wraps.
pub fn bad_total(flags: &[u8], sizes: &[u64]) -> bool
    requires { length flags.now ≡ length sizes.now }
    ensures { (b : Given) → HandsSizes b flags.now sizes.now → result ≡ bad_total b }
{
    let mut total: u64 = 0;
    for (byte, size) in flags.iter().zip(sizes) {
        let size = listed_size(*byte, *size);
        if whole::TOTAL_LIMIT - total < size {
            return true;
        }
        total += size;
    }
    false
}

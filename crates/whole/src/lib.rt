// Sizes as whole numbers: their total against 2^53, up to which every sum is exact in a double.
#![tactic(auto)]

ghost use Rattle.std.specs.Prelude.{◌≡◌};
ghost use Rattle.whole.specs.Total.{total_exceeds};

// 2^53: the largest total of sizes that is accepted.
pub const TOTAL_LIMIT: u64 = 9_007_199_254_740_992;

// Refusal 6: whether the sizes add to more than 2^53. What is left below the limit is compared, so nothing wraps.
pub fn total_exceeds(sizes: &[u64]) -> bool
    ensures { result ≡ total_exceeds sizes.now }
{
    let mut total: u64 = 0;
    for size in sizes {
        if TOTAL_LIMIT - total < *size {
            return true;
        }
        total += *size;
    }
    false
}

// The conditions of the state, 11 to 13: the chunk count on entry, and the lent areas.
ghost use Rattle.std.specs.Prelude.{◌≡◌, List, ℕ, ◌≤◌, length};
ghost use Rattle.refusal.specs.Counts.{module_limit};
ghost use Rattle.grouping.specs.Given.{Given, Areas};
ghost use Rattle.grouping.specs.Conditions.{bad_entry_count, bad_area, pairs, scratch_need, bad_scratch};
ghost use Rattle.sums.specs.HandsIn.{pair_limit};
ghost use Rattle.conditions.specs.HandsIn.{area_lengths};

use crate::AreaLengths;

// The largest chunk count on entry.
pub const CHUNK_COUNT_LIMIT: usize = 65535;

// Refusal 11.
pub fn bad_entry_count(on_entry: usize) -> bool
    ensures { result ≡ bad_entry_count on_entry }
{
    CHUNK_COUNT_LIMIT < on_entry
}

// Refusal 12: an output area is shorter than n modules need.
pub fn bad_area(n: usize, lengths: AreaLengths) -> bool
    requires { n ≤ module_limit }
    ensures { (a : Areas) → area_lengths a ≡ lengths → result ≡ bad_area n a }
{
    (lengths.chunk_of < n)
        | (lengths.next_of < n)
        | (lengths.first_of < n)
        | (lengths.group_of < n)
        | (lengths.name_of < n)
        | (lengths.size_of < n)
        | (lengths.bits_of < 4 * n)
        | (lengths.mark_of < n)
}

// Refusal 13: scratch of so many words is shorter than what n modules and that many (group, name) pairs need.
pub fn scratch_short(count: usize, n: usize, scratch: usize) -> bool
    requires { (count ≤ pair_limit) × (n ≤ module_limit) }
    ensures { (b : Given) (area : List ℕ) → b.shared.n ≡ n → pairs b ≡ count → length area ≡ scratch → result ≡ bad_scratch (scratch_need b) area }
{
    scratch < count * n + 32 * n
}

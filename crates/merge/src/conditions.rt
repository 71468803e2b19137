// The conditions of the call that have several parts, a function each.
ghost use Rattle.std.specs.Prelude.{◌≡◌, not, ◌||◌, ◌*◌, ◌≤◌, ltb, eqb};
ghost use Rattle.refusal.specs.Counts.{module_limit, entry_limit};

// Refusal 1: a count above its limit.
pub fn counts_exceed(k: usize, entries: usize) -> bool
    ensures { result ≡ (ltb module_limit k || ltb entry_limit entries) }
{
    refusal::MODULE_LIMIT < k || refusal::ENTRY_LIMIT < entries
}

// Refusal 2: a table whose length is not the one that k implies.
pub fn lengths_differ(k: usize, sizes: usize, bits: usize) -> bool
    requires { k ≤ module_limit }
    ensures { result ≡ (not (eqb sizes k) || not (eqb bits (4 * k))) }
{
    sizes != k || bits != 4 * k
}

// Refusal 12: an output area with less than k entries.
pub fn areas_short(k: usize, numbers: usize, sizes: usize, bits: usize) -> bool
    requires { k ≤ module_limit }
    ensures { result ≡ (ltb numbers k || (ltb sizes k || ltb bits (4 * k))) }
{
    numbers < k || sizes < k || bits < 4 * k
}

// Entry bits in a table: four words a row.
ghost use Rattle.std.specs.Prelude.{◌≡◌, ◌*◌, ◌+◌, ◌≤◌, length};
ghost use Rattle.bitset.specs.Entries.{row_of, any_beyond};
ghost use Rattle.bitset.specs.Rows.{with_row};

use crate::entries::BitSet;

// The set of row k.
pub fn row(table: &[u64], k: usize) -> BitSet
    requires { 4 * k + 4 ≤ length table.now }
    ensures { result ≡ row_of table.now k }
{
    let at = 4 * k;
    BitSet {
        words: [table[at], table[at + 1], table[at + 2], table[at + 3]],
    }
}

// Writes the four words of row i.
pub fn store_row(table: &mut [u64], i: usize, set: BitSet)
    requires { 4 * i + 4 ≤ length table.old }
    ensures { table.new ≡ with_row table.old i set }
{
    let at = 4 * i;
    table[at..at + 4].copy_from_slice(&set.words);
}

// Refusal 9 over a table of n rows: an entry at or above the count of entries.
pub fn any_bit_from(table: &[u64], n: usize, entries: usize) -> bool
    requires { 4 * n ≤ length table.now }
    ensures { result ≡ any_beyond entries table.now n }
{
    for k in 0..n {
        if row(table, k).has_bit_from(entries) {
            return true;
        }
    }
    false
}

// Subgroups in tables: a size and four words of entry bits a row.
ghost use Rattle.std.specs.Prelude.{◌≡◌, true, map, ◌≤◌, ◌^◌, get_or};
ghost use Rattle.std.specs.Float.{binary64};
ghost use Rattle.std.specs.Float.Ieee.{in_unsigned};
ghost use Rattle.joins.specs.Held.{held};
ghost use Rattle.merge.specs.Tables.{subgroup_at};
ghost use Rattle.merge.specs.Engine.{renamed, with_size, with_bits, InRow};

use bitset::table::{row, store_row};
use joins::sizes::size_at;
use joins::subgroup::Subgroup;

// Subgroup i, its size as a double.
pub fn subgroup_at(sizes: &[u64], bits: &[u64], i: usize) -> Subgroup
    requires in_row { InRow sizes.now bits.now i }
    requires i_bound { get_or sizes.now i 0 ≤ 2 ^ 53 }
    ensures { held result ≡ subgroup_at sizes.now bits.now i }
{
    Subgroup {
        number: i,
        size: size_at(sizes, i),
        bits: row(bits, i),
    }
}

// Writes a subgroup to its row: the size as a whole number again, which it is, and the bits.
pub fn store(sizes: &mut [u64], bits: &mut [u64], s: Subgroup)
    requires in_row { InRow sizes.old bits.old s.number }
    requires size_value { in_unsigned binary64 64 s.size ≡ true }
    ensures { (sizes.new ≡ with_size sizes.old (held s)) × (bits.new ≡ with_bits bits.old (held s)) }
{
    let at = s.number;
    sizes[at] = s.size as u64;
    store_row(bits, at, s.bits);
}

// A number once `from` has joined `to`.
fn renamed(n: u32, from: u32, to: u32) -> u32
    ensures { result ≡ renamed from to n }
{
    if n == from { to } else { n }
}

// Whatever had the number `from` gets `to`.
pub fn rename(numbers: &mut [u32], from: u32, to: u32)
    ensures { numbers.new ≡ map (renamed from to) numbers.old }
{
    for number in numbers.iter_mut() {
        *number = renamed(*number, from, to);
    }
}

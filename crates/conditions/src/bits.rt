// Refusal 9: a flag byte above 7, or an entry bit at or above the count of entries.
ghost use Rattle.std.specs.Prelude.{◌≡◌, ◌*◌, length};
ghost use Rattle.grouping.specs.Given.{Given};
ghost use Rattle.grouping.specs.Conditions.{bad_bit};
ghost use Rattle.conditions.specs.HandsIn.{HandsBits};

pub fn bad_bit(flags: &[u8], bits: &[u64], n: usize, e: usize) -> bool
    requires { (length flags.now ≡ n) × (length bits.now ≡ 4 * n) }
    ensures { (b : Given) → HandsBits b flags.now bits.now n e → result ≡ bad_bit b }
{
    if flags::bad_flags(flags, n) {
        return true;
    }
    bitset::table::any_bit_from(bits, n, e)
}

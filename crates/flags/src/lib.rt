// The flag byte of a module: 1 normal, 2 included, 4 already assigned, summed.
#![tactic(auto)]

ghost use Rattle.std.specs.Prelude.{◌≡◌, ◌≤◌, ◌<◌, length};
ghost use Rattle.flags.specs.Flags.{listed, eligible_at, bad_flags};

use index::ModuleIdx;

// Normal and included.
pub fn is_listed(flags: u8) -> bool
    ensures { result ≡ listed flags }
{
    flags & 3 == 3
}

// Module m is normal, included and not assigned.
pub fn is_eligible_at(flags: &[u8], m: ModuleIdx) -> bool
    requires { m.0 < length flags.now }
    ensures { result ≡ eligible_at flags.now m.0 }
{
    flags[m.0 as usize] & 7 == 3
}

// Refusal 9: a flag byte above 7 among n modules. All are looked at, also behind one that is refused: so several are compared at once.
pub fn bad_flags(flags: &[u8], n: usize) -> bool
    requires { n ≤ length flags.now }
    ensures { result ≡ bad_flags flags.now n }
{
    let mut bad = false;
    for byte in &flags[..n] {
        bad |= 7 < *byte;
    }
    bad
}

// A slice copied over one of its length. By a loop, which the compiler makes a `memcpy`: the slices' own method is a `memmove`, which hosts don't
// supply.
#![tactic(auto)]

ghost use Rattle.std.specs.Prelude.{◌≡◌, length};

pub fn copy<T: Copy>(from: &[T], to: &mut [T])
    requires { length from.now ≡ length to.old }
    ensures { to.new ≡ from.now }
{
    for (i, value) in from.iter().enumerate() {
        to[i] = *value;
    }
}

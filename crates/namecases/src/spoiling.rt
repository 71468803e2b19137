// The lines that spoil a case: which there can be, and how long they make the tables and the area.
ghost use Rattle.std.specs.Prelude.{◌≤◌};

use withlines::Form;
use withlines::with::With;

// Whether every line is one that the call can have.
pub fn all_known(with: With, k: usize, e: usize) -> bool
    requires { (k ≤ 4097) × (e ≤ 4097) }
{
    withlines::all_known(
        with,
        &[
            Form::unnamed(b"name_offsets", k + 1),
            Form::unnamed(b"entry_offsets", e + 1),
            Form::length(b"name_offsets"),
            Form::length(b"entry_offsets"),
            Form::count(b"k"),
            Form::count(b"e"),
            Form::areas(1),
        ],
    )
}

// Whether the tables and the area are long enough for what the lines ask.
pub fn within_limits(with: With) -> bool {
    withlines::length(with, b"name_offsets", 0) <= 65540
        && withlines::length(with, b"entry_offsets", 0) <= 65540
        && withlines::area(with, 0, 0) <= 16500
}

// The length of the area: three bytes more than the longest name can have, where the names of groups have so many.
pub fn area(with: With, bytes: usize) -> usize {
    withlines::area(with, 0, bytes.wrapping_add(103))
}

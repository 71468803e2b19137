// Looks at every entry of the areas. What is wrong is a line that begins with `!`.
ghost use Rattle.std.specs.Prelude.{◌≤◌};

use crate::areas::Areas;
use listform::areas;
use textform::out;

pub fn warn(what: &[u8]) {
    out::text(b"! ");
    out::text(what);
    out::line_end();
}

fn numbers(what: &[u8], area: &[u32], from: usize) {
    if !areas::kept(area, from) {
        warn(what);
    }
}

// Areas of chunk records from a record on.
pub fn records(held: Areas, from: usize)
    requires { from ≤ 4096 }
{
    let Areas {
        first_of,
        group_of,
        name_of,
        size_of,
        bits_of,
        mark_of,
        ..
    } = held;
    numbers(b"first_of was written", first_of, from);
    numbers(b"group_of was written", group_of, from);
    numbers(b"name_of was written", name_of, from);
    if !areas::kept(size_of, from) {
        warn(b"size_of was written");
    }
    if !areas::kept(bits_of, 4 * from) {
        warn(b"bits_of was written");
    }
    if !areas::kept(mark_of, from) {
        warn(b"mark_of was written");
    }
}

// Areas of modules from a module on.
pub fn modules(held: Areas, from: usize) {
    let Areas {
        chunk_of,
        next_of,
        ..
    } = held;
    numbers(b"chunk_of was written", chunk_of, from);
    numbers(b"next_of was written", next_of, from);
}

// Scratch, of which so many words have to be zero and the others as they were.
pub fn scratch(held: Areas, zeros: usize) {
    let area = held.scratch;
    if !areas::zeros(area, zeros) {
        warn(b"scratch is not zero");
    }
    numbers(b"scratch was written", area, zeros);
}

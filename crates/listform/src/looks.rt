// Looks at every entry of every lent area after a call. What is wrong is a line that begins with `!`.
ghost use Rattle.std.specs.Prelude.{◌≤◌};

use crate::areas;
use crate::areas::Entry;
use crate::list::ChunkList;
use textform::out;

pub fn warn(tag: &[u8], what: &[u8]) {
    out::begin(b"! chunks", tag);
    out::text(b": ");
    out::text(what);
    out::line_end();
}

// Entries from a place on, which no call may have written.
fn untouched<T: Entry>(tag: &[u8], what: &[u8], area: &[T], from: usize) {
    if !areas::kept(area, from) {
        warn(tag, what);
    }
}

impl ChunkList<'_> {
    // Areas of chunk records from a record on.
    pub fn look_at_records(self, tag: &[u8], from: usize)
        requires { from ≤ 128 }
    {
        let ChunkList {
            first_of,
            group_of,
            name_of,
            size_of,
            bits_of,
            mark_of,
            ..
        } = self;
        untouched(tag, b"first_of was written", first_of, from);
        untouched(tag, b"group_of was written", group_of, from);
        untouched(tag, b"name_of was written", name_of, from);
        untouched(tag, b"size_of was written", size_of, from);
        untouched(tag, b"bits_of was written", bits_of, 4 * from);
        untouched(tag, b"mark_of was written", mark_of, from);
    }

    // Areas of modules from a module on.
    pub fn look_at_modules(self, tag: &[u8], from: usize) {
        let ChunkList {
            chunk_of,
            next_of,
            ..
        } = self;
        untouched(tag, b"chunk_of was written", chunk_of, from);
        untouched(tag, b"next_of was written", next_of, from);
    }

    // Scratch that was not lent, from a place on.
    pub fn look_at_scratch(self, tag: &[u8], from: usize) {
        let scratch = self.scratch;
        untouched(tag, b"scratch was written", scratch, from);
    }

    // Scratch after a call that was not refused: zeros as far as it was lent.
    pub fn look_at_cleared_scratch(self, tag: &[u8], lent: usize) {
        let scratch = self.scratch;
        if !areas::zeros(scratch, lent) {
            warn(tag, b"scratch is not zero");
        }
        self.look_at_scratch(tag, lent);
    }
}

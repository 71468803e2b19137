// Looks at the entries of lent areas. What is wrong is a line that begins with `!`.
use listform::areas;
use listform::areas::Entry;
use textform::out;

fn warn(tag: &[u8], what: &[u8]) {
    out::begin(b"!", tag);
    out::text(b": ");
    out::text(what);
    out::line_end();
}

// Entries from a place on, which no call may have written.
pub fn untouched<T: Entry>(tag: &[u8], what: &[u8], area: &[T], from: usize) {
    if !areas::kept(area, from) {
        warn(tag, what);
    }
}

// Scratch: zeros up to a place, and from there on as it was.
pub fn scratch(tag: &[u8], zeros: usize, area: &[u32; 4100]) {
    if !areas::zeros(area, zeros) {
        warn(tag, b"scratch is not zero");
    }
    untouched(tag, b"scratch was written", area, zeros);
}

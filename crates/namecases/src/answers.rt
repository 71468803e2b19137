// LENGTH NAME, or a refusal, and what is wrong with the lent area.
use refusal::Refusal;
use tablecalls::looks;
use textform::{entries, out};

// The bytes of a name as pairs of hexadecimal digits; a point stands for no bytes.
fn show_name(name: &[u8]) {
    if name.is_empty() {
        out::text(b".");
    }
    for byte in name {
        io::print_hex(1, *byte as u64, 2);
    }
    out::line_end();
}

// A refusal leaves the area as it was, and a name all bytes past it.
pub fn show(tag: &[u8], answer: Result<usize, Refusal>, area: &[u8; 16500]) {
    match answer {
        Err(refusal) => {
            out::refused(refusal.number());
            looks::untouched(tag, b"the area was written", area, 0);
        }
        Ok(length) => {
            out::blank();
            out::number(length as u64);
            out::blank();
            show_name(entries::front(area, length));
            looks::untouched(tag, b"the area was written past the name", area, length);
        }
    }
}

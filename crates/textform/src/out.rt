// Lines of output.
use crate::doubles;

pub fn text(s: &[u8]) {
    io::write_all(1, s);
}

pub fn blank() {
    text(b" ");
}

pub fn colon() {
    text(b":");
}

pub fn line_end() {
    text(b"\n");
}

pub fn number<N: Into<u64>>(n: N) {
    io::print_decimal(1, n.into());
}

// A word of entry bits, after a colon.
pub fn word(n: u64) {
    colon();
    io::print_hex(1, n, 1);
}

// A size as the 16 digits of its bits.
pub fn double(x: f64) {
    blank();
    io::print_hex(1, doubles::bits_of(x), 16);
}

// A size as the whole number that every size is.
pub fn size(x: f64) {
    blank();
    if -1.0 < x && x < 18446744073709551616.0 {
        number(std::num::truncating_f64_to_u64(x));
    } else {
        text(b"?");
    }
}

// The call and its tag, with which each answer begins.
pub fn begin(call: &[u8], tag: &[u8]) {
    text(call);
    blank();
    text(tag);
}

pub fn refused(n: u32) {
    text(b" refused ");
    number(n);
    line_end();
}

// A line that is no case, or one beyond the limits.
pub fn unread(line: u64) {
    text(b"! line ");
    number(line);
    line_end();
}

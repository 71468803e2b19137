// Entry bits: the lowest and the highest entry of each word, unions, and entries that are out of range.
use bitset::entries::BitSet;
use textform::out;

fn show(label: &[u8], set: BitSet) {
    out::begin(b"bits", label);
    for word in &set.words {
        out::blank();
        out::number(*word);
    }
    out::line_end();
}

fn truth(label: &[u8], holds: bool) {
    out::begin(b"bits", label);
    if holds {
        out::text(b" yes\n");
    } else {
        out::text(b" no\n");
    }
}

fn outer() -> BitSet {
    BitSet::new().set_bit(0).set_bit(255)
}

fn inner() -> BitSet {
    BitSet::new().set_bit(63).set_bit(64)
}

pub fn sets() {
    show(b"none:", BitSet::new());
    show(b"0 and 255:", outer());
    show(b"63 and 64:", inner());
    show(b"united:", outer().union(inner()));
    out::text(b"bits that differ: ");
    let both = outer().union(inner());
    out::number(both.symmetric_difference_count(outer()));
    out::line_end();
}

pub fn tests() {
    truth(b"has 255?", outer().has_bit(255));
    truth(b"has 254?", outer().has_bit(254));
    truth(b"has 64?", inner().has_bit(64));
    truth(b"64 of 65 entries out of range?", inner().has_bit_from(65));
    truth(b"64 of 64 entries out of range?", inner().has_bit_from(64));
    truth(
        b"255 of 256 entries out of range?",
        outer().has_bit_from(256),
    );
    truth(
        b"255 of 255 entries out of range?",
        outer().has_bit_from(255),
    );
}

// The words NUMBER AWARE W0 W1 W2 W3 of a case.
use bitset::entries::BitSet;
use textform::reading::Words;

// The chunk that is named.
#[derive(Clone, Copy)]
pub struct Chunk {
    pub number: u32,
    pub entries_aware: bool,
    pub bits: BitSet,
}

pub fn read(words: &mut Words) -> Option<Chunk> {
    let number = words.short()?;
    let entries_aware = words.decimal_within(1)? == 1;
    let bits = BitSet {
        words: [
            words.hexadecimal()?,
            words.hexadecimal()?,
            words.hexadecimal()?,
            words.hexadecimal()?,
        ],
    };
    Some(Chunk {
        number,
        entries_aware,
        bits,
    })
}

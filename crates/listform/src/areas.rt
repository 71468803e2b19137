// Lent areas: what they hold before a call, the part of each that is lent, and whether they hold still what they held. No call has reason to
// write these values.
pub const BYTE: u8 = 165;

pub const NUMBER: u32 = 2779096485;

pub const WORD: u64 = 11936128518282651045;

pub const SIZE: f64 = -0.5;

// The entries of an area, and what each holds before a call.
pub trait Entry: PartialEq + Copy {
    const HELD: Self;
}

impl Entry for u8 {
    const HELD: u8 = BYTE;
}

impl Entry for u32 {
    const HELD: u32 = NUMBER;
}

impl Entry for u64 {
    const HELD: u64 = WORD;
}

impl Entry for f64 {
    const HELD: f64 = SIZE;
}

// The first n entries of an area; none where it has fewer.
pub fn lent<T>(area: &mut [T], n: usize) -> &mut [T] {
    if n <= area.len() {
        &mut area[..n]
    } else {
        &mut area[..0]
    }
}

// Whether all entries from a place on are as they were. All are looked at, so that the compiler can take many at a time.
pub fn kept<T: Entry>(area: &[T], from: usize) -> bool {
    let mut kept = true;
    for entry in &area[from.min(area.len())..] {
        kept &= *entry == T::HELD;
    }
    kept
}

// Whether the first so many numbers are zero.
pub fn zeros(area: &[u32], count: usize) -> bool {
    let mut zeros = true;
    for n in &area[..count.min(area.len())] {
        zeros &= *n == 0;
    }
    zeros
}

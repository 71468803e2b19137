// What a word stands for: numbers, doubles and limits, and bytes.
ghost use Rattle.std.specs.Prelude.{◌≤◌, length};
ghost use Rattle.std.specs.Option.{IfSome};

// Nothing if a digit is none, or the number is too large. `from_str_radix` would take a sign too.
fn number(digits: &[u8], base: u32) -> Option<u64>
    requires lower_bound { 2 ≤ base }
    requires upper_bound { base ≤ 36 }
{
    if digits.is_empty() {
        return None;
    }
    let mut value = 0u64;
    for digit in digits {
        let ones = char::from(*digit).to_digit(base)?;
        value = value.checked_mul(base as u64)?.checked_add(ones as u64)?;
    }
    Some(value)
}

pub fn decimal(word: &[u8]) -> Option<u64> {
    number(word, 10)
}

pub fn hexadecimal(word: &[u8]) -> Option<u64> {
    number(word, 16)
}

// The double of a bit pattern. All patterns above infinity's, the sign apart, are a NaN's.
fn of_bits(bits: u64) -> f64 {
    if 9218868437227405312 < bits % 9223372036854775808 {
        return 0.0 / 0.0;
    }
    f64::from_bits(bits)
}

// A double is the 16 hexadecimal digits of its bits.
pub fn double(word: &[u8]) -> Option<f64> {
    if word.len() != 16 {
        return None;
    }
    hexadecimal(word).map(of_bits)
}

// A limit is a double, or `-` where it is absent.
pub fn limit(word: &[u8]) -> Option<Option<f64>> {
    match word {
        b"-" => Some(None),
        _ => double(word).map(Some),
    }
}

// Puts bytes, which are pairs of hexadecimal digits, at the front of an area. A point stands for no bytes. Answers how many they are; nothing if
// the word has no pairs, or more than the area has room for.
pub fn bytes(word: &[u8], area: &mut [u8]) -> Option<usize>
    ensures { IfSome result (λ n. n ≤ length area.old) }
{
    if word == b".".as_slice() {
        return Some(0);
    }
    let count = word.len() / 2;
    if count == 0 || word.len() % 2 != 0 || area.len() < count {
        return None;
    }
    for (byte, pair) in area.iter_mut().zip(word.chunks(2)) {
        *byte = u8::try_from(hexadecimal(pair)?).ok()?;
    }
    Some(count)
}

// The bits of doubles.

// The bit pattern of a double; of a NaN, one of its patterns.
pub fn bits_of(x: f64) -> u64 {
    if x.is_nan() {
        return 9221120237041090560;
    }
    f64::to_bits(x)
}

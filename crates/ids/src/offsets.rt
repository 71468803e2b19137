// Refusal 3 over a table of offsets.
ghost use Rattle.std.specs.Prelude.{◌≡◌, ◌||◌, ◌-◌, ltb};
ghost use Rattle.ids.specs.Offsets.{id_too_long, bad_offsets};

// The longest id, in bytes.
pub const ID_LIMIT: usize = 1024;

// An id of more than 1,024 bytes.
pub fn id_too_long(id: &[u8]) -> bool
    ensures { result ≡ id_too_long id.now }
{
    ID_LIMIT < id.len()
}

// An offset passes the end of the byte slice or falls, or an id is longer than the longest allowed. Where none is too long, that is the end.
pub fn bad_offsets(longest: usize, end: usize, offsets: &[u32]) -> bool
    ensures { result ≡ bad_offsets longest end offsets.now }
{
    for (k, offset) in offsets.iter().enumerate() {
        let a = *offset as usize;
        if end < a {
            return true;
        }
        if let Some(next) = offsets.get(k + 1) {
            if bad_pair(longest, a, *next as usize) {
                return true;
            }
        }
    }
    false
}

// Two offsets that follow each other fall, or hold an id that is too long.
fn bad_pair(longest: usize, a: usize, b: usize) -> bool
    ensures { result ≡ (ltb b a || ltb longest (b - a)) }
{
    b < a || longest < b - a
}

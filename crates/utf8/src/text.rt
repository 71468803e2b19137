// Text, byte by byte.
ghost use Rattle.std.specs.Prelude.{◌≡◌};
ghost use Rattle.utf8.specs.Utf8.{utf8};

use crate::states::{NO_TEXT, next_state};

// Whether the bytes are text by RFC 3629.
pub fn is_utf8(bytes: &[u8]) -> bool
    ensures { result ≡ utf8 bytes.now }
{
    let mut state = 0;
    for byte in bytes {
        state = next_state(state, *byte);
        if NO_TEXT <= state {
            return false;
        }
    }
    state == 0
}

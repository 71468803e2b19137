// The state between two bytes: 0 where a character may start, 1 to 7 where bytes are due, 8 where the bytes are no text.
ghost use Rattle.std.specs.Prelude.{◌≡◌, cond, List, ◌∷◌, ℕ};
ghost use Rattle.utf8.specs.Table.{among, values};
ghost use Rattle.utf8.specs.States.{goes_from};

// No byte leads out of this state. It's a number among the others, and no `None`: the clause of the public `next_state` names states by number.
pub const NO_TEXT: u8 = 8;

// The state after the first byte of a character: the rows of RFC 3629's table.
fn first_state(byte: u8) -> u8
    ensures { (l : List ℕ) → goes_from result l ≡ goes_from 0 (byte ∷ l) }
{
    match byte {
        0..=127 => 0,
        194..=223 => 1,
        224 => 4,
        225..=236 => 2,
        237 => 5,
        238..=239 => 2,
        240 => 6,
        241..=243 => 3,
        244 => 7,
        _ => NO_TEXT,
    }
}

// The state `next` after a byte from `lowest` to `highest`; any other byte makes no text.
fn within(byte: u8, lowest: u8, highest: u8, next: u8) -> u8
    ensures { result ≡ cond (among (values lowest highest) byte) next 8 }
{
    if lowest <= byte && byte <= highest {
        next
    } else {
        NO_TEXT
    }
}

// The state after one more byte.
pub fn next_state(state: u8, byte: u8) -> u8
    ensures { (l : List ℕ) → goes_from result l ≡ goes_from state (byte ∷ l) }
{
    match state {
        0 => first_state(byte),
        1 => within(byte, 128, 191, 0),
        2 => within(byte, 128, 191, 1),
        3 => within(byte, 128, 191, 2),
        4 => within(byte, 160, 191, 1),
        5 => within(byte, 128, 159, 1),
        6 => within(byte, 144, 191, 2),
        7 => within(byte, 128, 143, 2),
        _ => NO_TEXT,
    }
}

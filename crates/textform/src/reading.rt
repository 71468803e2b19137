// The lines of a text and the words of a line, one after another.
ghost use Rattle.std.specs.Prelude.{◌≤◌, length};
ghost use Rattle.std.specs.Iterator.{at_most};
ghost use Rattle.std.specs.Option.{IfSome};

use crate::values;

// The lines that are left of a text, each without its end.
#[derive(Drop)]
pub struct Lines<'a> {
    pub rest: &'a [u8],
}

impl<'a> Iterator for Lines<'a> {
    type Item = &'a [u8];

    ghost remaining = { λ s. at_most (length s.rest.now) };

    fn next(&mut self) -> Option<&'a [u8]> {
        let text = self.rest;
        if text.is_empty() {
            return None;
        }
        let Some(end) = text.iter().position(|byte| *byte == b'\n') else {
            self.rest = &text[..0];
            return Some(text);
        };
        self.rest = &text[end + 1..];
        Some(&text[..end])
    }
}

// The words that are left of a text. Blanks and all bytes below them stand between words.
#[derive(Clone, Copy)]
pub struct Words<'a> {
    pub rest: &'a [u8],
}

impl<'a> Iterator for Words<'a> {
    type Item = &'a [u8];

    ghost remaining = { λ s. at_most (length s.rest.now) };

    fn next(&mut self) -> Option<&'a [u8]> {
        let from = self.rest.iter().position(|byte| b' ' < *byte)?;
        let started = &self.rest[from..];
        let more = started[1..].iter().position(|byte| *byte <= b' ');
        let to = more.map_or(started.len(), |k| k + 1);
        self.rest = &started[to..];
        Some(&started[..to])
    }
}

impl<'a> Words<'a> {
    pub fn of(text: &'a [u8]) -> Self {
        Words { rest: text }
    }

    // Whether no word is left.
    pub fn ended(&self) -> bool {
        self.rest.iter().all(|byte| *byte <= b' ')
    }

    // The next word as a value; nothing if it is missing, or stands for no such value.
    pub fn decimal(&mut self) -> Option<u64> {
        values::decimal(self.next()?)
    }

    pub fn decimal_within(&mut self, most: u64) -> Option<u64>
        ensures { IfSome result (λ n. n ≤ most) }
    {
        let n = self.decimal()?;
        if n <= most { Some(n) } else { None }
    }

    pub fn byte(&mut self) -> Option<u8> {
        u8::try_from(self.decimal()?).ok()
    }

    pub fn short(&mut self) -> Option<u32> {
        u32::try_from(self.decimal()?).ok()
    }

    pub fn hexadecimal(&mut self) -> Option<u64> {
        values::hexadecimal(self.next()?)
    }

    pub fn double(&mut self) -> Option<f64> {
        values::double(self.next()?)
    }

    pub fn limit(&mut self) -> Option<Option<f64>> {
        values::limit(self.next()?)
    }

    // Puts the bytes that the next word stands for at the front of an area. Answers how many they are.
    pub fn bytes(&mut self, area: &mut [u8]) -> Option<usize>
        ensures { IfSome result (λ n. n ≤ length area.old) }
    {
        values::bytes(self.next()?, area)
    }
}

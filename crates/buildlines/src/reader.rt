// The words of a text, one after another, each as a value. After one that can't be read nothing is read.
ghost use Rattle.std.specs.Prelude.{◌≤◌, IfOk, length};

use textform::reading::Words;
use textform::values;

// A word can't be read, or is beyond the limits.
#[derive(Clone, Copy)]
pub struct Unread;

#[derive(Drop)]
pub struct Reader<'a> {
    words: Words<'a>,
}

impl<'a> Reader<'a> {
    pub fn new(text: &'a [u8]) -> Self {
        Reader {
            words: Words::of(text),
        }
    }

    // The next word.
    pub fn word(&mut self) -> Result<&'a [u8], Unread> {
        self.words.next().ok_or(Unread)
    }

    // Passes over what is left of a line.
    pub fn pass_line(&mut self) {
        let rest = self.words.rest;
        let end = rest.iter().position(|byte| *byte == b'\n');
        self.words.rest = &rest[end.unwrap_or(rest.len())..];
    }

    // The next word has to be this letter.
    pub fn letter(&mut self, wanted: u8) -> Result<(), Unread> {
        match self.word()? {
            [letter] if *letter == wanted => Ok(()),
            _ => Err(Unread),
        }
    }

    pub fn decimal(&mut self) -> Result<u64, Unread> {
        self.words.decimal().ok_or(Unread)
    }

    pub fn decimal_within(&mut self, most: usize) -> Result<usize, Unread>
        ensures { IfOk result (λ n. n ≤ most) }
    {
        let number = self.decimal()? as usize;
        if most < number {
            return Err(Unread);
        }
        Ok(number)
    }

    pub fn byte(&mut self) -> Result<u8, Unread> {
        self.words.byte().ok_or(Unread)
    }

    pub fn short(&mut self) -> Result<u32, Unread> {
        self.words.short().ok_or(Unread)
    }

    pub fn hexadecimal(&mut self) -> Result<u64, Unread> {
        self.words.hexadecimal().ok_or(Unread)
    }

    // Puts the bytes that the next word stands for at the front of an area. Answers how many they are.
    pub fn bytes(&mut self, area: &mut [u8]) -> Result<usize, Unread>
        ensures { IfOk result (λ n. n ≤ length area.old) }
    {
        match self.words.bytes(area) {
            Some(count) => Ok(count),
            None => Err(Unread),
        }
    }

    // A double, if it is given.
    pub fn limit(&mut self) -> Result<Option<f64>, Unread> {
        self.words.limit().ok_or(Unread)
    }

    // A number of 32 bits, if it is given.
    pub fn share_count(&mut self) -> Result<Option<u32>, Unread> {
        let Some(number) = self.decimal_or_absent()? else {
            return Ok(None);
        };
        match u32::try_from(number) {
            Ok(count) => Ok(Some(count)),
            Err(_) => Err(Unread),
        }
    }

    // Yes or no, if it is said.
    pub fn choice(&mut self) -> Result<Option<bool>, Unread> {
        match self.decimal_or_absent()? {
            None => Ok(None),
            Some(0) => Ok(Some(false)),
            Some(1) => Ok(Some(true)),
            Some(_) => Err(Unread),
        }
    }

    // A number; nothing where the next word says that it is absent.
    fn decimal_or_absent(&mut self) -> Result<Option<u64>, Unread> {
        match self.word()? {
            b"-" => Ok(None),
            word => values::decimal(word).map(Some).ok_or(Unread),
        }
    }
}

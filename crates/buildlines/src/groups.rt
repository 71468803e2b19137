// The lines of groups and of their answers.
ghost use Rattle.std.specs.Prelude.{◌<◌, ◌≤◌};

use crate::given::GivenOptions;
use crate::reader::{Reader, Unread};
use crate::tables::{ALL_ANSWERS, Answers, GroupTables};

fn bit_if(said: bool, bit: u8) -> u8
    ensures { result ≤ bit }
{
    if said { bit } else { 0 }
}

// The bit of what is off, or those of what is on.
fn choice_bits(choice: Option<bool>, off: u8, on: u8) -> u8
    requires { off ≤ on }
    ensures { result ≤ on }
{
    match choice {
        None => 0,
        Some(false) => off,
        Some(true) => on,
    }
}

// The byte that says which options a group has, and that it is entries-aware.
fn given_byte(own: GivenOptions, entries_aware: Option<bool>) -> u8 {
    bit_if(own.min_size.is_some(), 1)
        | bit_if(own.max_size.is_some(), 2)
        | bit_if(own.min_module_size.is_some(), 4)
        | bit_if(own.max_module_size.is_some(), 8)
        | bit_if(own.min_share_count.is_some(), 16)
        | choice_bits(own.recursion, 32, 96)
        | choice_bits(entries_aware, 0, 128)
}

impl GroupTables {
    // The options that group i has of its own. An absent one is 0.
    fn store(&mut self, i: usize, own: GivenOptions)
        requires { i < 96 }
    {
        self.min_size[i] = own.min_size.unwrap_or(0.0);
        self.max_size[i] = own.max_size.unwrap_or(0.0);
        self.min_module_size[i] = own.min_module_size.unwrap_or(0.0);
        self.max_module_size[i] = own.max_module_size.unwrap_or(0.0);
        self.min_share_count[i] = own.min_share_count.unwrap_or(0);
    }

    // The line of group i: g OPTIONS MASK PRIORITY ENTRIES_AWARE THRESHOLD
    fn read_line(&mut self, i: usize, reader: &mut Reader) -> Result<(), Unread>
        requires { i < 96 }
    {
        reader.letter(b'g')?;
        let own = GivenOptions::read(reader)?;
        self.store(i, own);
        self.tags[i] = reader.hexadecimal()?;
        self.priority[i] = reader.share_count()?.unwrap_or(0);
        let entries_aware = reader.choice()?;
        self.given[i] = given_byte(own, entries_aware);
        self.threshold[i] = reader.limit()?.unwrap_or(0.0);
        Ok(())
    }

    pub fn read(&mut self, g: usize, reader: &mut Reader) -> Result<(), Unread>
        requires { g ≤ 96 }
    {
        for i in 0..g {
            self.read_line(i, reader)?;
        }
        Ok(())
    }
}

impl Answers {
    // The answers of one group more, for n modules.
    fn read_row(&mut self, n: usize, reader: &mut Reader) -> Result<(), Unread>
        requires { n ≤ 64 }
    {
        let from = self.length;
        if ALL_ANSWERS < from {
            return Err(Unread);
        }
        reader.letter(b'a')?;
        for answer in self.numbers[from..from + n].iter_mut() {
            *answer = reader.short()?;
        }
        self.length = from + n;
        Ok(())
    }

    // The answers of all groups.
    pub fn read(&mut self, g: usize, n: usize, reader: &mut Reader) -> Result<(), Unread>
        requires { n ≤ 64 }
    {
        for _ in 0..g {
            self.read_row(n, reader)?;
        }
        Ok(())
    }
}

// The lines of modules and of dependency records.
ghost use Rattle.std.specs.Prelude.{◌<◌, ◌≤◌};

use crate::reader::{Reader, Unread};
use crate::tables::{Ids, ModuleTables, RecordTables};

impl Ids {
    // One id more.
    fn read(&mut self, reader: &mut Reader) -> Result<(), Unread> {
        self.length += reader.bytes(&mut self.bytes[self.length..])?;
        Ok(())
    }
}

impl ModuleTables {
    // FLAGS SIZE ORDER SHARE_COUNT TAGS W0 W1 W2 W3 FIRST
    fn read_numbers(&mut self, i: usize, reader: &mut Reader) -> Result<(), Unread>
        requires { i < 64 }
    {
        self.flags[i] = reader.byte()?;
        self.sizes[i] = reader.decimal()?;
        self.orders[i] = reader.short()?;
        self.shares[i] = reader.short()?;
        self.tags[i] = reader.hexadecimal()?;
        for word in self.bits[4 * i..4 * i + 4].iter_mut() {
            *word = reader.hexadecimal()?;
        }
        self.first[i] = reader.short()?;
        Ok(())
    }

    // The lines of so many modules: m, the numbers, ID.
    pub fn read(&mut self, n: usize, ids: &mut Ids, reader: &mut Reader) -> Result<(), Unread>
        requires { n ≤ 64 }
    {
        for i in 0..n {
            reader.letter(b'm')?;
            self.read_numbers(i, reader)?;
            ids.read(reader)?;
            self.offsets[i + 1] = ids.length as u32;
        }
        Ok(())
    }
}

impl RecordTables {
    // The lines of so many records: d DEPENDENCY NEXT. Record 0 is never read: it holds numbers out of every range.
    pub fn read(&mut self, d: usize, reader: &mut Reader) -> Result<(), Unread>
        requires { d ≤ 128 }
    {
        self.dependency[0] = u32::MAX;
        self.next[0] = u32::MAX;
        for r in 1..d + 1 {
            reader.letter(b'd')?;
            self.dependency[r] = reader.short()?;
            self.next[r] = reader.short()?;
        }
        Ok(())
    }
}

// The lines that spoil a build before it is handed over.
ghost use Rattle.std.specs.Prelude.{◌≤◌};

use crate::Build;
use crate::lengths::Lengths;
use buildlines::counts::{Counts, Lent};
use buildlines::reader::{Reader, Unread};
use buildlines::tables::ModuleTables;

// offsets O0 .. ON
fn read_offsets(tables: &mut ModuleTables, n: usize, reader: &mut Reader) -> Result<(), Unread>
    requires { n ≤ 64 }
{
    for offset in tables.offsets[..n + 1].iter_mut() {
        *offset = reader.short()?;
    }
    Ok(())
}

// len TABLE LENGTH
fn read_length(lengths: &mut Lengths, reader: &mut Reader) -> Result<(), Unread> {
    let table = reader.word()?;
    let entries = reader.decimal_within(2048)?;
    match table {
        b"flags" => lengths.flags.set(entries),
        b"sizes" => lengths.sizes.set(entries),
        b"orders" => lengths.orders.set(entries),
        b"shares" => lengths.shares.set(entries),
        b"tags" => lengths.tags.set(entries),
        b"bits" => lengths.bits.set(entries),
        b"offsets" => lengths.offsets.set(entries),
        b"first" => lengths.first.set(entries),
        b"dep_module" => lengths.dependency.set(entries),
        b"dep_next" => lengths.next.set(entries),
        b"given" => lengths.given.set(entries),
        b"min_size" => lengths.min_size.set(entries),
        b"max_size" => lengths.max_size.set(entries),
        b"min_module_size" => lengths.min_module_size.set(entries),
        b"max_module_size" => lengths.max_module_size.set(entries),
        b"min_share_count" => lengths.min_share_count.set(entries),
        b"mask" => lengths.group_tags.set(entries),
        b"priority" => lengths.priority.set(entries),
        b"threshold" => lengths.threshold.set(entries),
        b"answers" => lengths.answers.set(entries),
        b"groups" => lengths.set_groups(entries),
        _ => Err(Unread),
    }
}

// count COUNT VALUE
fn read_count(counts: &mut Counts, reader: &mut Reader) -> Result<(), Unread> {
    let count = reader.word()?;
    let value = reader.decimal()? as usize;
    match count {
        b"n" => counts.n = value,
        b"g" => counts.g = value,
        b"e" => counts.e = value,
        b"k" => counts.k = value,
        b"d" => counts.d = value,
        _ => return Err(Unread),
    }
    Ok(())
}

// areas CHUNK_OF NEXT_OF RECORDS SCRATCH
fn read_areas(reader: &mut Reader) -> Result<Lent, Unread> {
    let chunk_of = reader.decimal_within(128)?;
    let next_of = reader.decimal_within(128)?;
    let records = reader.decimal_within(128)?;
    let scratch = reader.decimal_within(73728)?;
    Ok(Lent {
        chunk_of,
        next_of,
        first_of: records,
        group_of: records,
        name_of: records,
        size_of: records,
        bits_of: 4 * records,
        mark_of: records,
        scratch,
    })
}

// records FIRST_OF GROUP_OF NAME_OF SIZE_OF BITS_OF MARK_OF, that of bits in words
fn read_records(lent: &mut Lent, reader: &mut Reader) -> Result<(), Unread> {
    lent.first_of = reader.decimal_within(128)?;
    lent.group_of = reader.decimal_within(128)?;
    lent.name_of = reader.decimal_within(128)?;
    lent.size_of = reader.decimal_within(128)?;
    lent.bits_of = reader.decimal_within(512)?;
    lent.mark_of = reader.decimal_within(128)?;
    Ok(())
}

impl Build {
    // One line, of which the first word has been read, over a build of n modules.
    fn read_line(
        &mut self,
        step: &[u8],
        n: usize,
        modules: &mut ModuleTables,
        reader: &mut Reader,
    ) -> Result<(), Unread>
        requires { n ≤ 64 }
    {
        match step {
            b"offsets" => read_offsets(modules, n, reader),
            b"len" => read_length(&mut self.lengths, reader),
            b"count" => read_count(&mut self.counts, reader),
            b"areas" => {
                self.lent = read_areas(reader)?;
                Ok(())
            }
            b"records" => read_records(&mut self.lent, reader),
            _ => Err(Unread),
        }
    }

    // The lines up to `end`, at most 64.
    pub fn read_damage(
        &mut self,
        n: usize,
        modules: &mut ModuleTables,
        reader: &mut Reader,
    ) -> Result<(), Unread>
        requires { n ≤ 64 }
    {
        for _ in 0..64 {
            match reader.word()? {
                b"end" => return Ok(()),
                step => self.read_line(step, n, modules, reader)?,
            }
        }
        Err(Unread)
    }
}

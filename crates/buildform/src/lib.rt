// Whole builds of the text form, with the lines that spoil them, read into tables.
#![tactic(auto)]

pub mod damage;
pub mod lengths;

ghost use Rattle.std.specs.Prelude.{◌≤◌, IfOk};

use crate::lengths::Lengths;
use buildlines::counts::{Counts, Lent};
use buildlines::given::GivenOptions;
use buildlines::reader::{Reader, Unread};
use buildlines::tables::{GROUPS, MODULES, RECORDS, Tables};

// What a call is given beside its tables: counts, global options, how much of each table is handed over, and how much of each area is lent.
#[derive(Clone, Copy)]
pub struct Build {
    pub counts: Counts,
    pub options: GivenOptions,
    pub lengths: Lengths,
    pub lent: Lent,
}

// N G E K D COUNT_ON_ENTRY
fn read_counts(reader: &mut Reader) -> Result<Counts, Unread>
    ensures { IfOk result (λ counts. (counts.n ≤ 64) × (counts.g ≤ 96) × (counts.d ≤ 128)) }
{
    let n = reader.decimal_within(MODULES)?;
    let g = reader.decimal_within(GROUPS)?;
    let e = reader.decimal()? as usize;
    let k = reader.decimal()? as usize;
    let d = reader.decimal_within(RECORDS)?;
    let on_entry = reader.decimal()? as usize;
    Ok(Counts {
        n,
        g,
        e,
        k,
        d,
        on_entry,
    })
}

// The lines of modules, dependency records, groups and answers.
fn read_tables(counts: Counts, tables: &mut Tables, reader: &mut Reader) -> Result<(), Unread>
    requires { (counts.n ≤ 64) × (counts.g ≤ 96) × (counts.d ≤ 128) }
{
    tables.modules.read(counts.n, &mut tables.ids, reader)?;
    tables.records.read(counts.d, reader)?;
    tables.groups.read(counts.g, reader)?;
    tables.answers.read(counts.g, counts.n, reader)
}

// A build, of whose first line the tag has been read, into tables that are empty. They stay where they are: handed back, they would be copied.
pub fn read(tables: &mut Tables, reader: &mut Reader) -> Result<Build, Unread> {
    let counts = read_counts(reader)?;
    reader.letter(b'o')?;
    let options = GivenOptions::read(reader)?;
    read_tables(counts, tables, reader)?;
    let lengths = lengths::implied(counts, tables.answers.length);
    let lent = lengths::spare(counts.n);
    let mut build = Build {
        counts,
        options,
        lengths,
        lent,
    };
    build.read_damage(counts.n, &mut tables.modules, reader)?;
    Ok(build)
}

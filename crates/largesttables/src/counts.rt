// The counts of the largest build, and how many entries of each area are lent, under each change.
ghost use Rattle.std.specs.Prelude.{◌≤◌};

use crate::change::{Area, Change};
use buildlines::counts::{Counts, Lent};

// As a host would have them.
const LARGEST: Counts = Counts {
    n: 4096,
    g: 64,
    e: 256,
    k: 65535,
    d: 65535,
    on_entry: 65535,
};

pub fn counts_of(change: Change) -> Counts
    ensures { (result.n ≤ 4097) × (result.d ≤ 65536) }
{
    match change {
        Change::ModulePastLimit => Counts { n: 4097, ..LARGEST },
        Change::GroupPastLimit => Counts { g: 65, ..LARGEST },
        Change::EntryPastLimit => Counts { e: 257, ..LARGEST },
        Change::NamePastLimit => Counts {
            k: 65536,
            ..LARGEST
        },
        Change::RecordPastLimit => Counts {
            d: 65536,
            ..LARGEST
        },
        Change::EntriesTooFew => Counts { e: 255, ..LARGEST },
        Change::ChunksPastLimit => Counts {
            on_entry: 65536,
            ..LARGEST
        },
        _ => LARGEST,
    }
}

// How many answers are handed over: as many as the counts imply, but where one is missing.
pub fn answers_of(change: Change) -> usize {
    match change {
        Change::ModulePastLimit => 262208,
        Change::GroupPastLimit => 266240,
        Change::AnswerTooFew => 262143,
        _ => 262144,
    }
}

// What is needed for 4,096 modules: 64 pairs of a group and a name need (64 + 32) * 4,096 words of scratch.
const NEEDED: Lent = Lent {
    chunk_of: 4096,
    next_of: 4096,
    first_of: 4096,
    group_of: 4096,
    name_of: 4096,
    size_of: 4096,
    bits_of: 16384,
    mark_of: 4096,
    scratch: 393216,
};

fn one_short(area: Area) -> Lent {
    let mut lent = NEEDED;
    match area {
        Area::ChunkOf => lent.chunk_of = 4095,
        Area::NextOf => lent.next_of = 4095,
        Area::FirstOf => lent.first_of = 4095,
        Area::GroupOf => lent.group_of = 4095,
        Area::NameOf => lent.name_of = 4095,
        Area::SizeOf => lent.size_of = 4095,
        Area::BitsOf => lent.bits_of = 16383,
        Area::MarkOf => lent.mark_of = 4095,
        Area::Scratch => lent.scratch = 393215,
    }
    lent
}

pub fn lent_under(change: Change) -> Lent {
    match change {
        Change::Short(area) => one_short(area),
        _ => NEEDED,
    }
}

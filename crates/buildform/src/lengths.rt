// How long each table is that is handed over, and each area that is lent.
ghost use Rattle.std.specs.Prelude.{◌≤◌};

use buildlines::counts::{Counts, Lent};
use buildlines::reader::Unread;

// The length of a table: the one that the counts imply, until it is changed to another that there is room for.
#[derive(Clone, Copy)]
pub struct Length {
    pub entries: usize,
    implied: usize,
    room: usize,
}

// How many entries of each table are handed over, of bits in words.
#[derive(Clone, Copy)]
pub struct Lengths {
    pub flags: Length,
    pub sizes: Length,
    pub orders: Length,
    pub shares: Length,
    pub tags: Length,
    pub bits: Length,
    pub offsets: Length,
    pub first: Length,
    pub dependency: Length,
    pub next: Length,
    pub given: Length,
    pub min_size: Length,
    pub max_size: Length,
    pub min_module_size: Length,
    pub max_module_size: Length,
    pub min_share_count: Length,
    pub group_tags: Length,
    pub priority: Length,
    pub threshold: Length,
    pub answers: Length,
}

impl Length {
    fn new(implied: usize, room: usize) -> Length {
        Length {
            entries: implied,
            implied,
            room,
        }
    }

    // A table that is not as long as the counts imply any more can't be changed again, since a part that was cut off stands there still.
    pub fn set(&mut self, entries: usize) -> Result<(), Unread> {
        if self.room < entries || self.entries != self.implied {
            return Err(Unread);
        }
        self.entries = entries;
        Ok(())
    }
}

impl Lengths {
    // All tables of groups get the same length.
    pub fn set_groups(&mut self, entries: usize) -> Result<(), Unread> {
        self.given.set(entries)?;
        self.min_size.set(entries)?;
        self.max_size.set(entries)?;
        self.min_module_size.set(entries)?;
        self.max_module_size.set(entries)?;
        self.min_share_count.set(entries)?;
        self.group_tags.set(entries)?;
        self.priority.set(entries)?;
        self.threshold.set(entries)
    }
}

// The lengths that the counts imply, where all groups together have so many answers.
pub fn implied(counts: Counts, answers: usize) -> Lengths
    requires { (counts.n ≤ 64) × (counts.d ≤ 128) }
{
    let modules = Length::new(counts.n, 128);
    let records = Length::new(counts.d + 1, 256);
    let groups = Length::new(counts.g, 128);
    Lengths {
        flags: modules,
        sizes: modules,
        orders: modules,
        shares: modules,
        tags: modules,
        bits: Length::new(4 * counts.n, 512),
        offsets: Length::new(counts.n + 1, 128),
        first: modules,
        dependency: records,
        next: records,
        given: groups,
        min_size: groups,
        max_size: groups,
        min_module_size: groups,
        max_module_size: groups,
        min_share_count: groups,
        group_tags: groups,
        priority: groups,
        threshold: groups,
        answers: Length::new(answers, 2048),
    }
}

// Three entries more than are needed in each area, and scratch as long as there is: it is enough for 1,088 names.
pub fn spare(n: usize) -> Lent
    requires { n ≤ 64 }
{
    let entries = n + 3;
    Lent {
        chunk_of: entries,
        next_of: entries,
        first_of: entries,
        group_of: entries,
        name_of: entries,
        size_of: entries,
        bits_of: 4 * entries,
        mark_of: entries,
        scratch: 73728,
    }
}

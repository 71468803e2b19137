// The counts of a build, and how much of each area is lent.

// The counts that are handed over: of modules, groups, entries, names and dependency records, and of the chunks on entry.
#[derive(Clone, Copy)]
pub struct Counts {
    pub n: usize,
    pub g: usize,
    pub e: usize,
    pub k: usize,
    pub d: usize,
    pub on_entry: usize,
}

// How many entries of each area are lent, of bits_of in words.
#[derive(Clone, Copy)]
pub struct Lent {
    pub chunk_of: usize,
    pub next_of: usize,
    pub first_of: usize,
    pub group_of: usize,
    pub name_of: usize,
    pub size_of: usize,
    pub bits_of: usize,
    pub mark_of: usize,
    pub scratch: usize,
}

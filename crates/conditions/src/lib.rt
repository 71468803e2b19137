// The conditions of the call Chunks, one function each. Tests of numbers alone are joined by `|`: none needs the one before it.
#![tactic(auto)]

pub mod areas;
pub mod bits;
pub mod chains;
pub mod counts;
pub mod ladder;
pub mod lengths;
pub mod limits;

// The lengths of the tables that have one entry a module, and of the bits, four words each.
#[derive(Clone, Copy)]
pub struct ModuleLengths {
    pub flags: usize,
    pub sizes: usize,
    pub orders: usize,
    pub shares: usize,
    pub tags: usize,
    pub bits: usize,
}

// The lengths of the id offsets and of the tables of dependency records.
#[derive(Clone, Copy)]
pub struct RecordLengths {
    pub offsets: usize,
    pub first: usize,
    pub dependency: usize,
    pub next: usize,
}

// The lengths of the tables that have one entry a group.
#[derive(Clone, Copy)]
pub struct GroupLengths {
    pub given: usize,
    pub min_size: usize,
    pub max_size: usize,
    pub min_module_size: usize,
    pub max_module_size: usize,
    pub min_share_count: usize,
    pub tags: usize,
    pub priority: usize,
    pub threshold: usize,
}

// The lengths of the lent areas: two a module, and the chunk records.
#[derive(Clone, Copy)]
pub struct AreaLengths {
    pub chunk_of: usize,
    pub next_of: usize,
    pub first_of: usize,
    pub group_of: usize,
    pub name_of: usize,
    pub size_of: usize,
    pub bits_of: usize,
    pub mark_of: usize,
}

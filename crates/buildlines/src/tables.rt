// The tables of a build. Past its entries each holds zeros, so that a longer part of it is the table lengthened with zeros.
ghost use Rattle.std.specs.Prelude.{◌≤◌};

// The most modules, groups and dependency records of a build, and the most answers of all its groups but the last.
pub const MODULES: usize = 64;

pub const GROUPS: usize = 96;

pub const RECORDS: usize = 128;

pub const ALL_ANSWERS: usize = 1024;

#[derive(Drop)]
pub struct ModuleTables {
    pub flags: [u8; 128],
    pub sizes: [u64; 128],
    pub orders: [u32; 128],
    pub shares: [u32; 128],
    pub tags: [u64; 128],
    pub bits: [u64; 512],
    pub offsets: [u32; 128],
    pub first: [u32; 128],
}

// The ids' bytes, and how many there are.
#[derive(Drop)]
pub struct Ids {
    pub bytes: [u8; 16384],
    pub length: usize,
    ghost within: { length ≤ 16384 },
}

#[derive(Drop)]
pub struct RecordTables {
    pub dependency: [u32; 256],
    pub next: [u32; 256],
}

#[derive(Drop)]
pub struct GroupTables {
    pub given: [u8; 128],
    pub min_size: [f64; 128],
    pub max_size: [f64; 128],
    pub min_module_size: [f64; 128],
    pub max_module_size: [f64; 128],
    pub min_share_count: [u32; 128],
    pub tags: [u64; 128],
    pub priority: [u32; 128],
    pub threshold: [f64; 128],
}

// The answers of all groups, and how many there are. The row of the last group is all that may pass the limit.
#[derive(Drop)]
pub struct Answers {
    pub numbers: [u32; 2048],
    pub length: usize,
    ghost within: { length ≤ 1088 },
}

#[derive(Drop)]
pub struct Tables {
    pub modules: ModuleTables,
    pub ids: Ids,
    pub records: RecordTables,
    pub groups: GroupTables,
    pub answers: Answers,
}

impl ModuleTables {
    fn empty() -> ModuleTables {
        ModuleTables {
            flags: [0; 128],
            sizes: [0; 128],
            orders: [0; 128],
            shares: [0; 128],
            tags: [0; 128],
            bits: [0; 512],
            offsets: [0; 128],
            first: [0; 128],
        }
    }
}

impl GroupTables {
    fn empty() -> GroupTables {
        GroupTables {
            given: [0; 128],
            min_size: [0.0; 128],
            max_size: [0.0; 128],
            min_module_size: [0.0; 128],
            max_module_size: [0.0; 128],
            min_share_count: [0; 128],
            tags: [0; 128],
            priority: [0; 128],
            threshold: [0.0; 128],
        }
    }
}

impl Tables {
    pub fn empty() -> Tables {
        Tables {
            modules: ModuleTables::empty(),
            ids: Ids {
                bytes: [0; 16384],
                length: 0,
            },
            records: RecordTables {
                dependency: [0; 256],
                next: [0; 256],
            },
            groups: GroupTables::empty(),
            answers: Answers {
                numbers: [0; 2048],
                length: 0,
            },
        }
    }
}

// The first n entries of a table; none where it has fewer.
pub fn prefix<T>(table: &[T], n: usize) -> &[T] {
    if n <= table.len() {
        return &table[..n];
    }
    &table[..0]
}

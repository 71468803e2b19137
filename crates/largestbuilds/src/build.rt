// The tables of the largest build, changed and handed over.
ghost use Rattle.std.specs.Prelude.{◌≤◌};

use buildlines::counts::Counts;
use buildlines::given::GivenOptions;
use buildlines::tables::prefix;
use largesttables::change::Change;
use largesttables::counts;
use largesttables::tables::Tables;
use options::tables::Groups;
use plainsplit::{Build, ModuleTables, ids_of};
use records::Records;

// What is absent or zero everywhere is one table for all.
const NUMBERS: [u32; 4097] = [0; 4097];

const WORDS: [u64; 4097] = [0; 4097];

const LIMITS: [f64; 65] = [0.0; 65];

// Each table is as long as the counts imply.
fn modules<'a>(tables: &'a Tables, n: usize) -> ModuleTables<'a>
    requires { n ≤ 4097 }
{
    ModuleTables {
        flags: prefix(&tables.flags, n),
        sizes: prefix(&tables.sizes, n),
        orders: prefix(&tables.orders, n),
        shares: prefix(&NUMBERS, n),
        tags: prefix(&WORDS, n),
        bits: prefix(&tables.bits, 4 * n),
        ids: ids_of(
            prefix(&tables.ids, 2 * n + 1022),
            prefix(&tables.offsets, n + 1),
        ),
    }
}

fn records<'a>(tables: &'a Tables, counts: Counts) -> Records<'a>
    requires { counts.d ≤ 65536 }
{
    Records {
        first: prefix(&tables.first, counts.n),
        dependency: prefix(&tables.dependency, counts.d + 1),
        next: prefix(&tables.next, counts.d + 1),
    }
}

fn groups<'a>(tables: &'a Tables, g: usize) -> Groups<'a> {
    Groups {
        given: prefix(&tables.given, g),
        min_size: prefix(&LIMITS, g),
        max_size: prefix(&LIMITS, g),
        min_module_size: prefix(&LIMITS, g),
        max_module_size: prefix(&LIMITS, g),
        min_share_count: prefix(&NUMBERS, g),
        tags: prefix(&WORDS, g),
        priority: prefix(&tables.priority, g),
        threshold: prefix(&tables.threshold, g),
    }
}

// No option is given to the whole build.
fn answer(change: Change, tables: &Tables) {
    let counts = counts::counts_of(change);
    let build = Build {
        counts,
        options: GivenOptions::NONE.to_options(),
        modules: modules(tables, counts.n),
        records: records(tables, counts),
        groups: groups(tables, counts.g),
        answers: prefix(&tables.answers, counts::answers_of(change)),
    };
    largestcalls::answer(change, build);
}

// Module 0 has the first record; all records but one past the limit are on its chain.
pub fn run(change: Change) {
    let mut tables = Tables {
        flags: [3; 4097],
        sizes: [2199023255552; 4097],
        orders: [0; 4097],
        bits: [0; 16388],
        ids: [0; 9216],
        offsets: [0; 4098],
        first: [0; 4097],
        dependency: [0; 65537],
        next: [0; 65537],
        given: [0; 65],
        priority: [0; 65],
        threshold: [0.0; 65],
        answers: [0; 266305],
    };
    tables.fill(counts::counts_of(change).d);
    tables.spoil(change);
    answer(change, &tables);
}

// Dependency records: (module, next), numbered from 1, and refusal 7 over them.
#![tactic(auto)]

ghost use Rattle.std.specs.Prelude.{◌≡◌, ◌+◌, ◌≤◌, length};
ghost use Rattle.records.specs.Chain.{chain_from};
ghost use Rattle.records.specs.Marks.{Unmarked, KnowReady};
ghost use Rattle.lists.specs.Stored.{stored};
ghost use Rattle.records.specs.Ascending.{all_ascend};
ghost use Rattle.records.specs.Bad.{bad_first, bad_record, bad_chain, bad_records, RecordTables, ChainTables};

// The tables of dependency records: each module's first record, and each record's module and next.
#[derive(Clone, Copy)]
pub struct Records<'a> {
    pub first: &'a [u32],
    pub dependency: &'a [u32],
    pub next: &'a [u32],
}

// A first record above d. All are looked at, also behind a bad one, and compared in 32 bits as they lie in the table: so several at once.
fn bad_first(first: &[u32], n: usize, d: usize) -> bool
    requires { (n ≤ length first.now) × (d ≤ 65535) }
    ensures { result ≡ bad_first first.now n d }
{
    let last = d as u32;
    let mut bad = false;
    for record in &first[..n] {
        bad |= last < *record;
    }
    bad
}

// A record from 1 to d with a next above d or a module not below n. All are looked at here too.
fn bad_record(dependency: &[u32], next: &[u32], n: usize, d: usize) -> bool
    requires { (length dependency.now ≡ d + 1) × (length next.now ≡ d + 1) × (n ≤ 4096) × (d ≤ 65535) }
    ensures { result ≡ bad_record dependency.now next.now n d }
{
    let last = d as u32;
    let modules = n as u32;
    let mut bad = false;
    for r in 1..d + 1 {
        bad |= (last < next[r]) | (modules <= dependency[r]);
    }
    bad
}

// Each record from 1 to d ends its chain or is followed by a later record. All are looked at here too.
fn all_ascend(next: &[u32], d: usize) -> bool
    requires { (d ≤ 65535) × (length next.now ≡ d + 1) }
    ensures { result ≡ all_ascend next.now d }
{
    let mut all = true;
    for r in 1..d + 1 {
        all &= (next[r] == 0) | ((r as u32) < next[r]);
    }
    all
}

// The records of a chain that ends are marked as known to end, up to its zero or to one that is known already.
fn know_chain(next: &[u32], known: &mut [u8], d: usize, from: usize)
    requires { KnowReady next.now known.old d from }
    ensures { known.new ≡ stored 1 (chain_from next.now d from) known.old }
{
    let mut r = from;
    while known[r] == 0 {
        known[r] = 1;
        r = next[r] as usize;
    }
}

// A chain without its zero within d records. The first bad chain leaves both loops. A chain is gone along only up to a record that is known to
// end, as zero is from the start, so that chains which share records cost no more than their records.
fn bad_chain(first: &[u32], next: &[u32], n: usize, d: usize, known: &mut [u8]) -> bool
    requires { ChainTables first.now next.now n d × Unmarked known.old d }
    ensures { result ≡ bad_chain first.now next.now n d }
{
    known[0] = 1;
    let mut bad = false;
    'modules: for from in &first[..n] {
        let start = *from as usize;
        let mut r = start;
        let mut left = d;
        while known[r] == 0 {
            if left == 0 {
                bad = true;
                break 'modules;
            }
            left -= 1;
            r = next[r] as usize;
        }
        know_chain(next, known, d, start);
    }
    bad
}

// The same, with marks of its own. Few records get a short table, which costs less.
fn any_bad_chain(first: &[u32], next: &[u32], n: usize, d: usize) -> bool
    requires { ChainTables first.now next.now n d }
    ensures { result ≡ bad_chain first.now next.now n d }
{
    if d < 4096 {
        let mut known = [0u8; 4096];
        return bad_chain(first, next, n, d, &mut known);
    }
    let mut known = [0u8; 65536];
    bad_chain(first, next, n, d, &mut known)
}

// Refusal 7. A chain whose records ascend ends, so chains are gone along only where some record does not ascend.
pub fn bad_records(records: &Records, n: usize, d: usize) -> bool
    requires { RecordTables records.now.first.now records.now.dependency.now records.now.next.now n d }
    ensures { result ≡ bad_records records.now.first.now records.now.dependency.now records.now.next.now n d }
{
    bad_first(records.first, n, d)
        || bad_record(records.dependency, records.next, n, d)
        || (!all_ascend(records.next, d) && any_bad_chain(records.first, records.next, n, d))
}

// The kinds of entry bits of a set, numbered by first appearance.
ghost use Rattle.std.specs.Prelude.{◌≡◌, ◌+◌, ◌*◌, ◌^◌, ◌<◌, ◌≤◌, MatchOption, length, set, slice_index_or};
ghost use Rattle.grouping.specs.Subgroups.{same_bits, kind_number};
ghost use Rattle.subgroups.specs.Kinds.{rows_of};
ghost use Rattle.subgroups.specs.Buckets.{mixed_with, bucket_of, Chained, ChainRoom, Pushed};
ghost use Rattle.subgroups.specs.Finding.{Members, KindRoom, KindFits, Entered, KindsFound};

use bitset::entries::BitSet;
use bitset::table::row;
use joins::subgroup::Subgroup;
use merge::tables::store;
use std::num::wrapping_add_u64;

// Equal entry bits.
pub fn same_bits(a: BitSet, b: BitSet) -> bool
    ensures { result ≡ same_bits a b }
{
    let x = a.words;
    let y = b.words;
    (x[0] == y[0]) & (x[1] == y[1]) & (x[2] == y[2]) & (x[3] == y[3])
}

// Five times the words so far and one more, modulo 2^64.
fn mix(mixed: u64, word: u64) -> u64
    ensures { result ≡ mixed_with mixed word }
{
    let twice = wrapping_add_u64(mixed, mixed);
    let four_times = wrapping_add_u64(twice, twice);
    wrapping_add_u64(wrapping_add_u64(four_times, mixed), word)
}

// The bucket of these bits. A search goes by it, and no answer does. One remainder costs less than one for each word.
fn bucket_of(bits: BitSet) -> usize
    ensures { result ≡ bucket_of bits }
{
    let w = bits.words;
    (mix(mix(mix(w[3], w[2]), w[1]), w[0]) % 2039) as usize
}

// The number of the kind that has these bits, if one of the kinds has. Only kinds of the bits' bucket are looked at, the last first. Heads
// and links are numbers plus 1.
fn find_kind(
    kind_bits: &[u64],
    heads: &[u32],
    chain: &[u32],
    count: usize,
    bits: BitSet,
) -> Option<usize>
    requires { (4 * count ≤ length kind_bits.now) × Chained kind_bits.now count heads.now chain.now
        × ChainRoom count heads.now chain.now }
    ensures { let number = kind_number 0 (rows_of kind_bits.now count) bits in
        MatchOption result (count ≡ number) (λ kind. (kind ≡ number) × (kind < count)) }
{
    let bucket = bucket_of(bits);
    let mut at = heads[bucket] as usize;
    while 0 < at {
        let kind = at - 1;
        if same_bits(row(kind_bits, kind), bits) {
            return Some(kind);
        }
        at = chain[kind] as usize;
    }
    None
}

// Puts the next kind first in its bucket.
fn push_kind(heads: &mut [u32], chain: &mut [u32], bucket: usize, count: usize)
    requires { (bucket < length heads.old) × (count < length chain.old) × (count < 4096) }
    ensures { Pushed bucket count heads.old chain.old heads.new chain.new }
{
    chain[count] = heads[bucket];
    heads[bucket] = (count + 1) as u32;
}

// The kind of some bits, and the count of kinds once it is among them.
#[derive(Clone, Copy)]
pub struct Numbered {
    pub kind: usize,
    pub count: usize,
}

// The kind of these bits: one that is there, or a new one of size 0 after the others.
fn enter_kind(
    kind_sizes: &mut [u64],
    kind_bits: &mut [u64],
    heads: &mut [u32],
    chain: &mut [u32],
    count: usize,
    bits: BitSet,
) -> Numbered
    requires { KindFits count bits kind_sizes.old kind_bits.old × Chained kind_bits.old count heads.old chain.old
        × ChainRoom (count + 1) heads.old chain.old × (count < 4096) }
    ensures { Entered count bits kind_sizes.old kind_bits.old result.kind result.count
        kind_sizes.new kind_bits.new × Chained kind_bits.new result.count heads.new chain.new }
{
    if let Some(kind) = find_kind(kind_bits, heads, chain, count, bits) {
        return Numbered { kind, count };
    }
    store(
        kind_sizes,
        kind_bits,
        Subgroup {
            number: count,
            size: 0.0,
            bits,
        },
    );
    push_kind(heads, chain, bucket_of(bits), count);
    Numbered {
        kind: count,
        count: count + 1,
    }
}

// Adds a size to that of a kind.
fn add_to_kind(kind_sizes: &mut [u64], kind: usize, size: u64)
    requires { (kind < length kind_sizes.old) × (slice_index_or kind_sizes.old kind 0 + size ≤ 2 ^ 53) }
    ensures { kind_sizes.new ≡ set kind_sizes.old kind (slice_index_or kind_sizes.old kind 0 + size) }
{
    kind_sizes[kind] += size;
}

// Finds the kinds of the modules of a set, numbered by first appearance, and the size of each. Answers how many there are.
pub fn find_kinds(
    bits: &[u64],
    sizes: &[u64],
    set: &[u32],
    kind_of: &mut [u32],
    kind_sizes: &mut [u64],
    kind_bits: &mut [u64],
    chain: &mut [u32],
) -> usize
    requires { Members bits.now sizes.now set.now × KindRoom set.now kind_of.old kind_sizes.old kind_bits.old
        × (length set.now ≤ length chain.old) }
    ensures { KindsFound bits.now sizes.now set.now result
        kind_of.new kind_sizes.new kind_bits.new }
{
    let mut heads = [0u32; 2039];
    let mut count = 0;
    for (i, module) in set.iter().enumerate() {
        let m = *module as usize;
        let found = enter_kind(
            kind_sizes,
            kind_bits,
            &mut heads,
            chain,
            count,
            row(bits, m),
        );
        count = found.count;
        kind_of[i] = found.kind as u32;
        add_to_kind(kind_sizes, found.kind, sizes[m]);
    }
    count
}

// The search for a seeker's target: the nearest of those still there. The first words alone rule out most blocks of 16 places, and most places of the
// others.
ghost use Rattle.std.specs.Prelude.{◌≡◌, map, ◌+◌, ◌*◌, ◌≤◌, ◌<◌, length};
ghost use Rattle.std.proofs.Math.Option.{some};
ghost use Rattle.lists.specs.Least.{least};
ghost use Rattle.bitset.specs.Entries.{word_at};
ghost use Rattle.joins.specs.Candidate.{comes_first, target_at};
ghost use Rattle.seeking.specs.Listed.{fewest, fewest_of_blocks};
ghost use Rattle.seeking.specs.Search.{found_of, Searchable, OfList, Nearer};

use crate::words::fill_fewest;
use bitset::entries::BitSet;
use joins::candidate::Candidate;

// The nearest so far, once the number at place i was looked at. It is compared only where its first word does not rule it out.
fn or_place(
    there: &[u32],
    words: &[u64],
    sizes: &[u64],
    bits: &[u64],
    i: usize,
    best: Candidate,
    wanted: BitSet,
) -> Candidate
    requires { Searchable there.now words.now sizes.now bits.now × OfList there.now sizes.now bits.now wanted best
        × (i < length there.now) }
    ensures { Nearer there.now sizes.now bits.now wanted best result i (i + 1) }
{
    let entries = wanted.words;
    if best.rules_out(entries[0], words[i]) {
        return best;
    }
    best.or_target(sizes, bits, there[i] as usize, wanted)
}

// The nearest so far, once the places from `from` up to `end` were looked at one after the other.
fn or_places(
    there: &[u32],
    words: &[u64],
    sizes: &[u64],
    bits: &[u64],
    from: usize,
    end: usize,
    best: Candidate,
    wanted: BitSet,
) -> Candidate
    requires { Searchable there.now words.now sizes.now bits.now × OfList there.now sizes.now bits.now wanted best
        × (from ≤ end) × (end ≤ length there.now) }
    ensures { Nearer there.now sizes.now bits.now wanted best result from end }
{
    let mut nearest = best;
    for i in from..end {
        nearest = or_place(there, words, sizes, bits, i, nearest, wanted);
    }
    nearest
}

// The same for block j. Where the fewest entries of its first words are more than the best has, none of its places is looked at.
fn or_block(
    there: &[u32],
    words: &[u64],
    sizes: &[u64],
    bits: &[u64],
    j: usize,
    few: u32,
    best: Candidate,
    wanted: BitSet,
) -> Candidate
    requires { Searchable there.now words.now sizes.now bits.now × OfList there.now sizes.now bits.now wanted best
        × (16 * j + 16 ≤ length there.now) × (few ≡ fewest words.now (word_at wanted 0) (16 * j) 16) }
    ensures { Nearer there.now sizes.now bits.now wanted best result (16 * j) (16 * j + 16) }
{
    if best.distance < few {
        return best;
    }
    or_places(there, words, sizes, bits, 16 * j, 16 * j + 16, best, wanted)
}

// The same for the blocks from `from` up to `end`.
fn or_blocks(
    there: &[u32],
    words: &[u64],
    few: &[u8],
    sizes: &[u64],
    bits: &[u64],
    from: usize,
    end: usize,
    best: Candidate,
    wanted: BitSet,
) -> Candidate
    requires { Searchable there.now words.now sizes.now bits.now × OfList there.now sizes.now bits.now wanted best
        × (from ≤ end) × (end ≤ length few.now) × (16 * length few.now ≤ length there.now)
        × (few.now ≡ fewest_of_blocks words.now (word_at wanted 0) (length few.now)) }
    ensures { Nearer there.now sizes.now bits.now wanted best result (16 * from) (16 * end) }
{
    let mut nearest = best;
    for j in from..end {
        nearest = or_block(there, words, sizes, bits, j, few[j] as u32, nearest, wanted);
    }
    nearest
}

// The nearest of a list. The block whose first words differ least is looked through first, since what is found there rules out most of the others;
// then come the blocks after it, those before it, and the places that are left.
fn nearest_listed(
    there: &[u32],
    words: &[u64],
    few: &mut [u8],
    sizes: &[u64],
    bits: &[u64],
    wanted: BitSet,
) -> Candidate
    requires { Searchable there.now words.now sizes.now bits.now × (0 < length there.now) × (16 * length few.old ≤ length there.now) }
    ensures { some result ≡ least comes_first (map (target_at sizes.now bits.now wanted) there.now) }
{
    let entries = wanted.words;
    let first = fill_fewest(few, words, entries[0]);
    let one = Candidate::target_at(sizes, bits, there[16 * first] as usize, wanted);
    let blocks = few.len();
    let later = or_blocks(there, words, few, sizes, bits, first, blocks, one, wanted);
    let earlier = or_blocks(there, words, few, sizes, bits, 0, first, later, wanted);
    or_places(
        there,
        words,
        sizes,
        bits,
        16 * blocks,
        there.len(),
        earlier,
        wanted,
    )
}

// How many blocks of a list are looked at as blocks: all, but at most 256. None where the list's first number is as far as a word has entries: then
// first words rule out too little.
fn block_count(count: usize, distance: u32) -> usize
    ensures { (result ≤ 256) × (16 * result ≤ count) }
{
    if 64 <= distance {
        return 0;
    }
    (count / 16).min(256)
}

// The subgroup that the seeker joins: of those listed the nearest.
pub fn find_target(
    there: &[u32],
    words: &[u64],
    sizes: &[u64],
    bits: &[u64],
    wanted: BitSet,
) -> Option<Candidate>
    requires { Searchable there.now words.now sizes.now bits.now }
    ensures { found_of result ≡ least comes_first (map (target_at sizes.now bits.now wanted) there.now) }
{
    if there.len() == 0 {
        return None;
    }
    let one = Candidate::target_at(sizes, bits, there[0] as usize, wanted);
    let blocks = block_count(there.len(), one.distance);
    let mut few = [0u8; 256];
    Some(nearest_listed(there, words, &mut few[..blocks], sizes, bits, wanted))
}

// The engine: joins one after the other, each found by looking at the heads of all blocks for the seeker, and through all subgroups that are still
// there for its target.
ghost use Rattle.std.specs.Prelude.{◌≡◌, ◌+◌, ◌*◌, ◌≤◌, ◌<◌, length};
ghost use Rattle.lists.specs.Range.{range};
ghost use Rattle.joins.specs.Held.{held};
ghost use Rattle.seeking.specs.Listed.{FirstWords};
ghost use Rattle.seeking.specs.Seekers.{Heads};
ghost use Rattle.merge.specs.Tables.{Mergeable, merge_of};
ghost use Rattle.merge.specs.Engine.{listed, Sound, Joinable, JoinedTables, Turn, Turns, Final};

use crate::tables::{rename, store, subgroup_at};
use joins::subgroup::Subgroup;
use seeking::heads::{fill_heads, refresh};
use seeking::list::remove;
use seeking::nearest::find_target;
use seeking::search::find_seeker;
use seeking::words::{fill_words, rewrite_word};

// The seeker joins the target: whatever had its number has the target's, and its row is left as zeros.
fn join(
    numbers: &mut [u32],
    sizes: &mut [u64],
    bits: &mut [u64],
    seeker: Subgroup,
    target: Subgroup,
)
    requires { Joinable (held seeker) (held target) numbers.old sizes.old bits.old }
    ensures { JoinedTables (held seeker) (held target) numbers.old sizes.old bits.old
        numbers.new sizes.new bits.new }
{
    let from = seeker.number;
    let to = target.number;
    rename(numbers, from as u32, to as u32);
    store(sizes, bits, seeker.joined_to(target));
    store(sizes, bits, seeker.vanished());
}

// Makes the next join, if there is one, and takes the seeker off the list. Answers whether there was.
fn join_next(
    numbers: &mut [u32],
    sizes: &mut [u64],
    bits: &mut [u64],
    there: &mut [u32],
    words: &mut [u64],
    heads: &mut [u32],
    threshold: f64,
) -> bool
    requires { Sound numbers.old sizes.old bits.old × (there.old ≡ listed numbers.old) × Heads threshold sizes.old heads.old
        × FirstWords (listed numbers.old) words.old bits.old × (length words.old ≡ length there.old) }
    ensures { Turn threshold result numbers.old sizes.old bits.old there.old
        numbers.new sizes.new bits.new there.new words.new heads.new }
{
    let Some(seeker) = find_seeker(heads, sizes, threshold) else {
        return false;
    };
    let from = seeker.number;
    let joining = subgroup_at(sizes, bits, from);
    remove(there, words, from as u32);
    let left = there.len() - 1;
    let Some(target) = find_target(&there[..left], words, sizes, bits, joining.bits) else {
        return false;
    };
    let to = target.number;
    let joined = subgroup_at(sizes, bits, to);
    join(numbers, sizes, bits, joining, joined);
    rewrite_word(words, &there[..left], bits, to);
    refresh(heads, sizes, threshold, from);
    refresh(heads, sizes, threshold, to);
    true
}

// Lists all numbers, and makes joins until there is none left to make. A join leaves one subgroup less, so that there are fewer joins than
// subgroups.
fn join_all(
    numbers: &mut [u32],
    sizes: &mut [u64],
    bits: &mut [u64],
    there: &mut [u32],
    words: &mut [u64],
    heads: &mut [u32],
    threshold: f64,
)
    requires { Sound numbers.old sizes.old bits.old × (numbers.old ≡ range 0 (length there.old))
        × (length words.old ≡ length there.old) × (length sizes.old ≤ 16 * length heads.old)
        × (16 * length heads.old < length sizes.old + 16) }
    ensures { Turns threshold numbers.old sizes.old bits.old
        numbers.new sizes.new bits.new }
{
    lists::fill::fill_range(there);
    fill_words(words, bits);
    fill_heads(heads, sizes, threshold);
    for left in (1..=there.len()).rev() {
        if !join_next(
            numbers,
            sizes,
            bits,
            &mut there[..left],
            &mut words[..left],
            heads,
            threshold,
        ) {
            return;
        }
    }
}

// All joins of at most N subgroups, with tables on the stack for N of them and for their blocks of 16.
fn join_within<const N: usize, const BLOCKS: usize>(
    numbers: &mut [u32],
    sizes: &mut [u64],
    bits: &mut [u64],
    threshold: f64,
)
    requires { Sound numbers.old sizes.old bits.old × (numbers.old ≡ range 0 (length numbers.old))
        × (length numbers.old ≤ N) × (N ≡ 16 * BLOCKS) × (N ≤ 4096) }
    ensures { Turns threshold numbers.old sizes.old bits.old
        numbers.new sizes.new bits.new }
{
    let count = numbers.len();
    let blocks = (count + 15) / 16;
    let mut there = [0u32; N];
    let mut words = [0u64; N];
    let mut heads = [0u32; BLOCKS];
    join_all(
        numbers,
        sizes,
        bits,
        &mut there[..count],
        &mut words[..count],
        &mut heads[..blocks],
        threshold,
    );
}

// The merge in place: sizes and bits are those of the subgroups on entry, and the numbers are written.
pub fn merge_in_place(numbers: &mut [u32], sizes: &mut [u64], bits: &mut [u64], threshold: f64)
    requires { Mergeable numbers.old sizes.old bits.old }
    ensures { Final (length numbers.old)
        (merge_of (length numbers.old) sizes.old bits.old threshold)
        numbers.new sizes.new bits.new }
{
    lists::fill::fill_range(numbers);
    if numbers.len() <= 1 {
        return;
    }
    if 0.0 < threshold {
        // Short tables cost less to clear.
        if numbers.len() <= 1024 {
            join_within::<1024, 64>(numbers, sizes, bits, threshold);
        } else {
            join_within::<4096, 256>(numbers, sizes, bits, threshold);
        }
    }
}

// Blocks of 16 numbers, and for each block its head: a number that stands for it, the one that seeks first where any of them seeks. A join changes
// two sizes, so that two blocks are looked through again, and the heads of all.
ghost use Rattle.std.specs.Prelude.{◌≡◌, ◌+◌, ◌*◌, ◌/◌, ◌≤◌, ◌<◌, length};
ghost use Rattle.joins.specs.Candidate.{Exact};
ghost use Rattle.seeking.specs.Seekers.{ahead, StandsFor, Heads, Refreshed};

use joins::candidate::Candidate;

// The one of two numbers that stands for both.
fn ahead(sizes: &[u64], threshold: f64, best: usize, i: usize) -> usize
    requires { Exact sizes.now × (best < length sizes.now) × (i < length sizes.now) }
    ensures { result ≡ ahead threshold sizes.now best i }
{
    let x = Candidate::seeker_at(sizes, i);
    if !x.seeks(threshold) {
        return best;
    }
    let y = Candidate::seeker_at(sizes, best);
    if !y.seeks(threshold) {
        return i;
    }
    if x.comes_before(y) {
        return i;
    }
    best
}

// Where a block ends: after 16 numbers, or with the last number of all.
fn block_end(start: usize, count: usize) -> usize
    requires { start < count }
    ensures { (start < result) × (result ≤ count) × (result ≤ start + 16) × (result < start + 16 → result ≡ count) }
{
    start + (count - start).min(16)
}

// The head of a block: its numbers looked through one after the other.
fn head_of(sizes: &[u64], threshold: f64, block: usize) -> usize
    requires { Exact sizes.now × (16 * block < length sizes.now) }
    ensures { StandsFor threshold sizes.now block result }
{
    let start = 16 * block;
    let end = block_end(start, sizes.len());
    let mut best = start;
    for i in start + 1..end {
        best = ahead(sizes, threshold, best, i);
    }
    best
}

// Looks through the block of a number again.
pub fn refresh(heads: &mut [u32], sizes: &[u64], threshold: f64, number: usize)
    requires { Exact sizes.now × (length sizes.now ≤ 4096) × (number < length sizes.now) × (length sizes.now ≤ 16 * length heads.old) }
    ensures { Refreshed threshold sizes.now (number / 16) heads.old heads.new }
{
    let block = number / 16;
    let head = head_of(sizes, threshold, block);
    heads[block] = head as u32;
}

// Looks through all blocks.
pub fn fill_heads(heads: &mut [u32], sizes: &[u64], threshold: f64)
    requires { Exact sizes.now × (length sizes.now ≤ 4096) × (length sizes.now ≤ 16 * length heads.old)
        × (16 * length heads.old < length sizes.now + 16) }
    ensures { Heads threshold sizes.now heads.new }
{
    for (j, head) in heads.iter_mut().enumerate() {
        *head = head_of(sizes, threshold, j) as u32;
    }
}

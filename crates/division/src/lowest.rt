// The lowest rank in each subgroup of a set.
ghost use Rattle.std.specs.Prelude.{◌≡◌, ltb, length, replicate};
ghost use Rattle.lists.specs.Least.{earlier};
ghost use Rattle.division.specs.Divided.{lowest_ranks, Divisible};

// The lower of two ranks.
fn lower(lowest: u32, own: u32) -> u32
    ensures { result ≡ earlier ltb lowest own }
{
    lowest.min(own)
}

// Writes 4,096, which is above every rank, for each subgroup.
pub fn clear_lowest(lowest: &mut [u32])
    ensures { lowest.new ≡ replicate (length lowest.old) 4096 }
{
    lowest.fill(4096);
}

// Finds the lowest rank in each subgroup in one pass over the set.
pub fn find_lowest(finals: &[u32], kind_of: &[u32], set: &[u32], rank: &[u32], lowest: &mut [u32])
    requires { Divisible finals.now kind_of.now set.now rank.now × (length lowest.old ≡ length kind_of.now)
        × (lowest.old ≡ replicate (length lowest.old) 4096) }
    ensures { lowest.new ≡ lowest_ranks finals.now kind_of.now set.now rank.now
        (length kind_of.now) (length kind_of.now) }
{
    for (i, kind) in kind_of.iter().enumerate() {
        let number = finals[*kind as usize] as usize;
        lowest[number] = lower(lowest[number], rank[set[i] as usize]);
    }
}

// The marks of followed records undone, along what was followed and no further.
#![tactic(auto)]

ghost use Rattle.std.specs.Prelude.{◌≡◌, ◌-◌, length};
ghost use Rattle.records.specs.Chain.{chain_from};
ghost use Rattle.lists.specs.Stored.{stored};
ghost use Rattle.forget.specs.Unfollowed.{unfollowed, ForgetReady, ForgetAllReady};

// Undoes the marks of a chain's records, up to its end or to one whose mark is undone already.
fn forget_chain(next: &[u32], followed: &mut [u8], from: usize)
    requires { ForgetReady next.now followed.old (length next.now - 1) from }
    ensures { followed.new
        ≡ stored 0 (chain_from next.now (length next.now - 1) from) followed.old }
{
    let mut r = from;
    while followed[r] != 0 {
        followed[r] = 0;
        r = next[r] as usize;
    }
}

// Undoes all marks of followed records: those along the chains of the modules on a list.
pub fn forget_all(first: &[u32], next: &[u32], list: &[u32], followed: &mut [u8])
    requires { ForgetAllReady first.now next.now list.now followed.old (length next.now - 1) }
    ensures { followed.new ≡ unfollowed }
{
    followed[0] = 0;
    for m in list {
        forget_chain(next, followed, first[*m as usize] as usize);
    }
}

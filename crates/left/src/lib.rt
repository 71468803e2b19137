// What is left of an item: chunk numbers serve as the marks of what is taken.
#![tactic(auto)]

ghost use Rattle.left.specs.Untaken.{untaken, Listed, Kept};

// Writes the modules of the list that have no chunk number. Answers how many there are. Every module is written, and the next one over it unless it
// counts: so the loop has no branch that depends on the modules.
pub fn keep_left(list: &[u32], chunk_of: &[u32], members: &mut [u32]) -> usize
    requires { Listed chunk_of.now list.now members.old }
    ensures { Kept (untaken chunk_of.now list.now) result members.old members.new }
{
    let mut count = 0;
    for module in list {
        let m = *module;
        members[count] = m;
        if chunk_of[m as usize] == 0 {
            count += 1;
        }
    }
    count
}

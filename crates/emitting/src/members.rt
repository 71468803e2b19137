// What the modules of a chunk give it: their entry bits united, and the chunk number that each of them gets.
ghost use Rattle.std.specs.Prelude.{◌≡◌};
ghost use Rattle.emitting.specs.Emitted.{union_of_modules, with_number, HasBits, HasEntry};

use bitset::entries::BitSet;
use bitset::table::row;

// The union of the entry bits of the modules, from the last to the first.
pub fn union_of(bits: &[u64], members: &[u32]) -> BitSet
    requires { HasBits bits.now members.now }
    ensures { result ≡ union_of_modules bits.now members.now }
{
    let mut union = BitSet::new();
    for m in members.iter().rev() {
        let own = row(bits, *m as usize);
        union = own.union(union);
    }
    union
}

// Each of the modules gets the number, which is a chunk's plus 1.
pub fn add_modules_to_chunk(members: &[u32], chunk_of: &mut [u32], number: u32)
    requires { HasEntry chunk_of.old members.now }
    ensures { chunk_of.new ≡ with_number members.now number chunk_of.old }
{
    for module in members {
        let m = *module as usize;
        chunk_of[m] = number;
    }
}

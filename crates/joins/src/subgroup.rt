// One subgroup by value, and the two that a join leaves.
ghost use Rattle.std.specs.Prelude.{◌≡◌};
ghost use Rattle.joins.specs.Subgroup.{united};
ghost use Rattle.joins.specs.Held.{held, vanished};

use bitset::entries::BitSet;

#[derive(Clone, Copy)]
pub struct Subgroup {
    pub number: usize,
    pub size: f64,
    pub bits: BitSet,
}

impl Subgroup {
    // The target once this subgroup has joined it: the target's number, sizes added as doubles, bits united.
    pub fn joined_to(self, target: Subgroup) -> Subgroup
        ensures { held result ≡ united (held self) (held target) }
    {
        let wanted = target.bits;
        Subgroup {
            number: target.number,
            size: target.size + self.size,
            bits: wanted.union(self.bits),
        }
    }

    // What is left of a subgroup that has joined another: its number, and nothing else.
    pub fn vanished(self) -> Subgroup
        ensures { held result ≡ vanished (held self) }
    {
        Subgroup {
            number: self.number,
            size: 0.0,
            bits: BitSet::new(),
        }
    }
}

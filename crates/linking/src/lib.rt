// The chains of the chunks, written once all chunks are made.
#![tactic(auto)]

ghost use Rattle.std.specs.Prelude.{◌≡◌};
ghost use Rattle.linking.specs.Links.{pushed_at, linked, Pushable, Linkable};

use index::ModuleIdx;

// Pushes a module to the front of the chain of record `slot`.
fn push_front(m: ModuleIdx, slot: usize, next_of: &mut [u32], first_of: &mut [u32])
    requires { Pushable m.0 slot (record { next_of = next_of.old; first_of = first_of.old }) }
    ensures { record { next_of = next_of.new; first_of = first_of.new }
        ≡ pushed_at slot m.0 (record { next_of = next_of.old; first_of = first_of.old }) }
{
    let place = m.0 as usize;
    next_of[place] = first_of[slot];
    first_of[slot] = m.0 + 1;
}

// Chains the modules of each chunk in execution order, in one pass from the last module to the first. `base` is the chunk count on entry.
pub fn link(
    order: &[u32],
    chunk_of: &[u32],
    base: u32,
    at: usize,
    next_of: &mut [u32],
    first_of: &mut [u32],
)
    requires { Linkable order.now chunk_of.now base at (record { next_of = next_of.old; first_of = first_of.old }) }
    ensures { record { next_of = next_of.new; first_of = first_of.new }
        ≡ linked chunk_of.now base at order.now
        (record { next_of = next_of.old; first_of = first_of.old }) }
{
    for m in order.iter().rev() {
        let c = chunk_of[*m as usize];
        if 0 < c {
            let slot = at + (c - base - 1) as usize;
            push_front(ModuleIdx(*m), slot, next_of, first_of);
        }
    }
}

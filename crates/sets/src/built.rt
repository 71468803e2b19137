// The set of one name: what the modules capture that take part with it, in execution order.
ghost use Rattle.std.specs.Prelude.{◌≡◌, length, replicate};
ghost use Rattle.forget.specs.Unfollowed.{unfollowed};
ghost use Rattle.sets.specs.Built.{starts_of, Placed, SetReady, SetBuilt};

use crate::captured::capture_all;
use crate::gathered::gather_found;
use lists::store::store_bytes;
use records::Records;

// Writes the modules that take part: those at the places of a run.
pub fn store_starts(run: &[u32], order: &[u32], set: &mut [u32])
    requires { Placed run.now order.now × (length run.now ≡ length set.old) }
    ensures { set.new ≡ starts_of order.now run.now }
{
    for (i, number) in run.iter().enumerate() {
        set[i] = order[(*number % 4096) as usize];
    }
}

// The set of one name, from the run of the modules that take part with it. Answers how many modules it has. Marks are undone along the list of the
// walk, so that nothing is marked between two sets.
pub fn build_set(
    recursive: bool,
    flags: &[u8],
    records: &Records,
    order: &[u32],
    place: &[u32],
    run: &[u32],
    marks: &mut [u8],
    queue: &mut [u32],
    followed: &mut [u8],
    set: &mut [u32],
) -> usize
    requires { SetReady flags.now records.now.first.now records.now.dependency.now records.now.next.now order.now place.now run.now marks.old queue.old
        followed.old set.old }
    ensures set_built { SetBuilt recursive flags.now records.now.first.now records.now.dependency.now records.now.next.now
        order.now run.now result set.new }
    ensures marks_after { (marks.new ≡ replicate (length flags.now) 0) × (followed.new ≡ unfollowed) }
{
    let count = run.len();
    store_starts(run, order, &mut set[..count]);
    if !recursive {
        return count;
    }
    let all = capture_all(flags, records, &set[..count], marks, queue, followed);
    let found = all.found;
    let alone = all.started == found;
    let size = gather_found(alone, count, order, place, &queue[..found], marks, set);
    store_bytes(0, &queue[..found], marks);
    size
}

// What several modules capture together: a walk that starts with all of them on its list.
ghost use mathlib.Core.List.{foldl};
ghost use Rattle.std.specs.Prelude.{◌≡◌, ◌-◌};
ghost use Rattle.forget.specs.Unfollowed.{unfollowed};
ghost use Rattle.walk.specs.Walk.{visited};
ghost use Rattle.sets.specs.Captured.{StartsReady, AllReady, AllFound};

use index::ModuleIdx;
use records::Records;
use walk::walk::{visit, walk};

// Marks each start and puts it on the list. Answers how many are on it.
fn mark_starts(flags: &[u8], starts: &[u32], marks: &mut [u8], queue: &mut [u32]) -> usize
    requires { StartsReady flags.now starts.now marks.old queue.old }
    ensures { foldl (visited flags.now) (record { marks = marks.old; queue = queue.old; tail = 0 })
        starts.now ≡ record { marks = marks.new; queue = queue.new; tail = result } }
{
    let mut tail = 0;
    for start in starts {
        tail = visit(flags, marks, queue, tail, ModuleIdx(*start));
    }
    tail
}

// How many modules were on the list with the starts alone, and with all that they reach.
#[derive(Clone, Copy)]
pub struct Found {
    pub started: usize,
    pub found: usize,
}

// Marks all that is reached from the starts, where nothing is marked yet.
pub fn capture_all(
    flags: &[u8],
    records: &Records,
    starts: &[u32],
    marks: &mut [u8],
    queue: &mut [u32],
    followed: &mut [u8],
) -> Found
    requires { AllReady flags.now records.now.first.now records.now.dependency.now records.now.next.now starts.now marks.old queue.old followed.old }
    ensures all_found { AllFound flags.now records.now.first.now records.now.dependency.now records.now.next.now
        starts.now result.started (record { marks = marks.new; queue = queue.new; tail = result.found }) }
    ensures followed_after { followed.new ≡ unfollowed }
{
    let started = mark_starts(flags, starts, marks, queue);
    let found = walk(flags, records, marks, queue, followed, started);
    Found { started, found }
}

// Closed sets: a set that is in chunks whole is passed over by the walks of later sets.
#![tactic(auto)]

ghost use Rattle.std.specs.Prelude.{◌≡◌, length, replicate};
ghost use Rattle.forget.specs.Unfollowed.{unfollowed};
ghost use Rattle.emitting.specs.Emitted.{HasEntry};
ghost use Rattle.sets.specs.Built.{SetReady, SetBuilt};
ghost use Rattle.closed.specs.Closed.{closes, live_by, some_left, closed_after};

use lists::store::store_bytes;
use options::Settings;
use records::Records;
use sets::built::build_set;

// Whether sets of the group can be closed.
pub fn can_close(settings: Settings) -> bool
    ensures { result ≡ closes settings }
{
    if settings.entries_aware {
        return false;
    }
    settings.recursive
}

// The set of one name. A group whose sets can be closed walks past the closed ones, and any other through all eligible modules.
pub fn build_left(
    closing: bool,
    recursive: bool,
    flags: &[u8],
    closed: &[u8],
    records: &Records,
    order: &[u32],
    place: &[u32],
    run: &[u32],
    marks: &mut [u8],
    queue: &mut [u32],
    followed: &mut [u8],
    set: &mut [u32],
) -> usize
    requires { SetReady (live_by closing flags.now closed.now) records.now.first.now records.now.dependency.now records.now.next.now order.now place.now run.now
        marks.old queue.old followed.old set.old }
    ensures set_built { SetBuilt recursive (live_by closing flags.now closed.now) records.now.first.now records.now.dependency.now
        records.now.next.now order.now run.now result set.new }
    ensures marks_after { (marks.new ≡ replicate (length (live_by closing flags.now closed.now)) 0)
        × (followed.new ≡ unfollowed) }
{
    if closing {
        return build_set(
            recursive, closed, records, order, place, run, marks, queue, followed, set,
        );
    }
    build_set(
        recursive, flags, records, order, place, run, marks, queue, followed, set,
    )
}

// Whether some module of the set has no chunk.
fn some_left(set: &[u32], chunk_of: &[u32]) -> bool
    requires { HasEntry chunk_of.now set.now }
    ensures { result ≡ some_left chunk_of.now set.now }
{
    for module in set {
        let m = *module as usize;
        if chunk_of[m] == 0 {
            return true;
        }
    }
    false
}

// Closes a set if it can be closed and is in chunks whole: its modules count as assigned. An item that was dropped leaves modules without a chunk.
pub fn close_set(closing: bool, set: &[u32], chunk_of: &[u32], live: &mut [u8])
    requires { HasEntry chunk_of.now set.now × HasEntry live.old set.now }
    ensures { live.new ≡ closed_after closing chunk_of.now set.now live.old }
{
    if !closing {
        return;
    }
    if some_left(set, chunk_of) {
        return;
    }
    store_bytes(7, set, live);
}

// The walk along dependencies: a list of modules still to visit, each put on it at most once.
ghost use mathlib.Core.List.{foldl};
ghost use Rattle.std.specs.Prelude.{◌≡◌, ◌-◌, length};
ghost use Rattle.records.specs.Chain.{chain_of, dependencies};
ghost use Rattle.lists.specs.Stored.{stored};
ghost use Rattle.forget.specs.Unfollowed.{unfollowed};
ghost use Rattle.walk.specs.Walk.{WalkReady, MarkedReady, Walked, FollowReady, VisitReady, visited};

use crate::plain::walk_plain;
use forget::forget_all;
use index::ModuleIdx;
use records::Records;

// A module that a chain names: it is marked and put on the list if it is eligible and not marked yet. Most that are named are marked, so this is asked
// first.
pub fn visit(
    flags: &[u8],
    marks: &mut [u8],
    queue: &mut [u32],
    tail: usize,
    named: ModuleIdx,
) -> usize
    requires { VisitReady flags.now (record { marks = marks.old; queue = queue.old; tail = tail }) named.0 }
    ensures { visited flags.now (record { marks = marks.old; queue = queue.old; tail = tail }) named.0
        ≡ record { marks = marks.new; queue = queue.new; tail = result } }
{
    let at = named.0 as usize;
    if marks[at] != 0 {
        return tail;
    }
    if !flags::is_eligible_at(flags, named) {
        return tail;
    }
    marks[at] = 1;
    queue[tail] = named.0;
    tail + 1
}

// Visits the modules that are named along a module's chain, up to a record that was followed before: all that the rest of the chain names has
// been visited.
fn follow(
    flags: &[u8],
    records: &Records,
    marks: &mut [u8],
    queue: &mut [u32],
    followed: &mut [u8],
    tail: usize,
    of: ModuleIdx,
) -> usize
    requires { FollowReady flags.now records.now.first.now records.now.dependency.now records.now.next.now (length flags.now) (length records.now.next.now - 1)
        (record { marks = marks.old; queue = queue.old; tail = tail }) of.0 followed.old }
    ensures of_value { foldl (visited flags.now) (record { marks = marks.old; queue = queue.old; tail = tail })
        (dependencies records.now.first.now records.now.dependency.now records.now.next.now (length records.now.next.now - 1) of.0)
        ≡ record { marks = marks.new; queue = queue.new; tail = result } }
    ensures followed_after { followed.new
        ≡ stored 1 (chain_of records.now.first.now records.now.next.now (length records.now.next.now - 1) of.0) followed.old }
{
    let at = of.0 as usize;
    let mut found = tail;
    let mut r = records.first[at] as usize;
    while followed[r] == 0 {
        followed[r] = 1;
        found = visit(flags, marks, queue, found, ModuleIdx(records.dependency[r]));
        r = records.next[r] as usize;
    }
    found
}

// Goes on with a walk whose first `start` modules are taken off the list and their chains followed, with marks of the records that it follows.
// Zero, which ends a chain, counts as followed. The marks are undone along the chains of the modules that it took off.
fn walk_marked(
    flags: &[u8],
    records: &Records,
    marks: &mut [u8],
    queue: &mut [u32],
    followed: &mut [u8],
    start: usize,
    tail: usize,
) -> usize
    requires { MarkedReady flags.now records.now.first.now records.now.dependency.now records.now.next.now (length flags.now) (length records.now.next.now - 1)
        start (record { marks = marks.old; queue = queue.old; tail = tail }) followed.old }
    ensures walked { Walked flags.now records.now.first.now records.now.dependency.now records.now.next.now (length flags.now)
        (length records.now.next.now - 1) marks.old (record { marks = marks.new; queue = queue.new; tail = result }) }
    ensures followed_after { followed.new ≡ unfollowed }
{
    let mut found = tail;
    let mut head = start;
    followed[0] = 1;
    // No `for`: the list grows while it is read.
    while head < found {
        let of = ModuleIdx(queue[head]);
        found = follow(flags, records, marks, queue, followed, found, of);
        head += 1;
    }
    forget_all(records.first, records.next, &queue[start..found], followed);
    found
}

// Marks all that is reached from the modules marked so far, which are the first `tail` of the list. Answers how many are on the list then. Records
// are marked as followed only once some are known to be shared.
pub fn walk(
    flags: &[u8],
    records: &Records,
    marks: &mut [u8],
    queue: &mut [u32],
    followed: &mut [u8],
    tail: usize,
) -> usize
    requires { WalkReady flags.now records.now.first.now records.now.dependency.now records.now.next.now (length flags.now) (length records.now.next.now - 1)
        (record { marks = marks.old; queue = queue.old; tail = tail }) followed.old }
    ensures walked { Walked flags.now records.now.first.now records.now.dependency.now records.now.next.now (length flags.now)
        (length records.now.next.now - 1) marks.old (record { marks = marks.new; queue = queue.new; tail = result }) }
    ensures followed_after { followed.new ≡ unfollowed }
{
    let part = walk_plain(flags, records, marks, queue, tail);
    if part.found <= part.head {
        return part.found;
    }
    walk_marked(
        flags, records, marks, queue, followed, part.head, part.found,
    )
}

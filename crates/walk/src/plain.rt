// The walk as long as it has gone along no more records than there are: no record is marked as followed, and nothing has to be undone.
ghost use mathlib.Core.List.{foldl};
ghost use Rattle.std.specs.Prelude.{◌≡◌, ◌+◌, ◌-◌, length, get_or};
ghost use Rattle.walk.specs.Walk.{PlainReady, Walking, visited};
ghost use Rattle.walk.specs.Chains.{named_from, FirstReady, FollowPlainReady};

use crate::four::take_four;
use crate::walk::visit;
use index::ModuleIdx;
use records::Records;

// How many modules are on the list, and how many records were gone along.
#[derive(Clone, Copy)]
pub struct Passed {
    pub found: usize,
    pub gone: usize,
}

// The first record of the module at a place of the list.
pub fn first_at(first: &[u32], queue: &[u32], place: usize) -> usize
    requires { FirstReady first.now queue.now place }
    ensures { result ≡ get_or first.now (get_or queue.now place 0) 0 }
{
    let of = queue[place] as usize;
    first[of] as usize
}

// Visits the modules that are named from a record on, to the end of its chain. Counts its records to those gone along before.
pub fn follow_plain(
    flags: &[u8],
    dependency: &[u32],
    next: &[u32],
    marks: &mut [u8],
    queue: &mut [u32],
    tail: usize,
    gone: usize,
    from: usize,
) -> Passed
    requires { FollowPlainReady flags.now dependency.now next.now (length flags.now) (length next.now - 1)
        (record { marks = marks.old; queue = queue.old; tail = tail }) gone from }
    ensures from_value { foldl (visited flags.now) (record { marks = marks.old; queue = queue.old; tail = tail })
        (named_from dependency.now next.now (length next.now - 1) from)
        ≡ record { marks = marks.new; queue = queue.new; tail = result.found } }
    ensures gone_value { result.gone ≡ gone + length (named_from dependency.now next.now (length next.now - 1) from) }
{
    let mut found = tail;
    let mut count = gone;
    let mut r = from;
    while r != 0 {
        found = visit(flags, marks, queue, found, ModuleIdx(dependency[r]));
        r = next[r] as usize;
        count += 1;
    }
    Passed { found, gone: count }
}

// How many modules of the list were taken off, and how many are on it.
#[derive(Clone, Copy)]
pub struct Part {
    pub head: usize,
    pub found: usize,
}

// Takes modules off the list, four at a time where it has four, and follows their chains, until all are taken off or more records were gone along
// than there are: then some chains share records. No chain has more records than there are, so no more than five times as many are gone along.
pub fn walk_plain(
    flags: &[u8],
    records: &Records,
    marks: &mut [u8],
    queue: &mut [u32],
    tail: usize,
) -> Part
    requires { PlainReady flags.now records.now.first.now records.now.dependency.now records.now.next.now (length flags.now) (length records.now.next.now - 1)
        (record { marks = marks.old; queue = queue.old; tail = tail }) }
    ensures { Walking flags.now records.now.first.now records.now.dependency.now records.now.next.now (length flags.now)
        (length records.now.next.now - 1) (record { marks = marks.old; queue = queue.old; tail = tail }) result.head
        (record { marks = marks.new; queue = queue.new; tail = result.found }) }
{
    let mut found = tail;
    let mut gone = 0;
    let mut head = 0;
    // No `for`: the list grows while it is read.
    while head < found {
        if records.next.len() <= gone {
            return Part { head, found };
        }
        if head + 4 <= found {
            let passed = take_four(flags, records, marks, queue, head, found, gone);
            found = passed.found;
            gone = passed.gone;
            head += 4;
            continue;
        }
        let from = first_at(records.first, queue, head);
        let passed = follow_plain(
            flags,
            records.dependency,
            records.next,
            marks,
            queue,
            found,
            gone,
            from,
        );
        found = passed.found;
        gone = passed.gone;
        head += 1;
    }
    Part { head, found }
}

// The chains of four modules, gone along side by side: while the next record of one is fetched from memory, those of the others are too.
ghost use mathlib.Core.List.{[], ◌∷◌, map, foldl};
ghost use Rattle.std.specs.Prelude.{◌≡◌, ◌+◌, ◌*◌, ◌-◌, length, get_or};
ghost use Rattle.walk.specs.Walk.{visited};
ghost use Rattle.walk.specs.Visited.{Visited};
ghost use Rattle.walk.specs.Chains.{named_from_all, named_by_part, go_on, RecordsReady, FollowAllReady, TakeFourReady};

use crate::plain::{Passed, first_at, follow_plain};
use crate::walk::visit;
use index::ModuleIdx;
use records::Records;

// None of four chains has come to its end.
#[tactic(auto, unfolding(crate::specs::Chains::go_on))]
fn go_on(a: usize, b: usize, c: usize, d: usize) -> bool
    ensures { result ≡ go_on (a ∷ b ∷ c ∷ d ∷ []) }
{
    a != 0 && b != 0 && c != 0 && d != 0
}

// Visits the modules that two records name.
fn visit_two(
    flags: &[u8],
    dependency: &[u32],
    marks: &mut [u8],
    queue: &mut [u32],
    tail: usize,
    a: usize,
    b: usize,
) -> usize
    requires { RecordsReady flags.now dependency.now (record { marks = marks.old; queue = queue.old; tail = tail }) (a ∷ b ∷ []) }
    ensures { foldl (visited flags.now) (record { marks = marks.old; queue = queue.old; tail = tail })
        (map (λ r. get_or dependency.now r 0) (a ∷ b ∷ []))
        ≡ record { marks = marks.new; queue = queue.new; tail = result } }
{
    let found = visit(flags, marks, queue, tail, ModuleIdx(dependency[a]));
    visit(flags, marks, queue, found, ModuleIdx(dependency[b]))
}

// Visits the modules that are named from two records on, to the end of one chain and then of the other. Counts their records to those gone along
// before.
fn follow_two(
    flags: &[u8],
    dependency: &[u32],
    next: &[u32],
    marks: &mut [u8],
    queue: &mut [u32],
    tail: usize,
    gone: usize,
    a: usize,
    b: usize,
) -> Passed
    requires { FollowAllReady flags.now dependency.now next.now (length flags.now) (length next.now - 1)
        (record { marks = marks.old; queue = queue.old; tail = tail }) gone (5 * (length next.now - 1)) (a ∷ b ∷ []) }
    ensures visited { Visited flags.now (length flags.now)
        (named_from_all dependency.now next.now (length next.now - 1) (a ∷ b ∷ []))
        (record { marks = marks.old; queue = queue.old; tail = tail })
        (record { marks = marks.new; queue = queue.new; tail = result.found }) }
    ensures gone_value { result.gone ≡ gone
        + length (named_from_all dependency.now next.now (length next.now - 1) (a ∷ b ∷ [])) }
{
    let p = follow_plain(flags, dependency, next, marks, queue, tail, gone, a);
    follow_plain(flags, dependency, next, marks, queue, p.found, p.gone, b)
}

// Visits the modules that are named from four records on: by turns as long as all four chains go on, then along what is left of each. Counts their
// records to those gone along before.
fn follow_four(
    flags: &[u8],
    dependency: &[u32],
    next: &[u32],
    marks: &mut [u8],
    queue: &mut [u32],
    tail: usize,
    gone: usize,
    mut a: usize,
    mut b: usize,
    mut c: usize,
    mut d: usize,
) -> Passed
    requires { FollowAllReady flags.now dependency.now next.now (length flags.now) (length next.now - 1)
        (record { marks = marks.old; queue = queue.old; tail = tail }) gone (length next.now - 1) (a ∷ b ∷ c ∷ d ∷ []) }
    ensures visited { Visited flags.now (length flags.now)
        (named_from_all dependency.now next.now (length next.now - 1) (a ∷ b ∷ c ∷ d ∷ []))
        (record { marks = marks.old; queue = queue.old; tail = tail })
        (record { marks = marks.new; queue = queue.new; tail = result.found }) }
    ensures gone_value { result.gone ≡ gone
        + length (named_from_all dependency.now next.now (length next.now - 1) (a ∷ b ∷ c ∷ d ∷ [])) }
{
    let mut found = tail;
    let mut count = gone;
    while go_on(a, b, c, d) {
        found = visit_two(flags, dependency, marks, queue, found, a, b);
        found = visit_two(flags, dependency, marks, queue, found, c, d);
        a = next[a] as usize;
        b = next[b] as usize;
        c = next[c] as usize;
        d = next[d] as usize;
        count += 4;
    }
    let p = follow_two(flags, dependency, next, marks, queue, found, count, a, b);
    follow_two(flags, dependency, next, marks, queue, p.found, p.gone, c, d)
}

// Follows the chains of the four modules from place `head` of the list on. Counts their records to those gone along before.
pub fn take_four(
    flags: &[u8],
    records: &Records,
    marks: &mut [u8],
    queue: &mut [u32],
    head: usize,
    tail: usize,
    gone: usize,
) -> Passed
    requires { TakeFourReady flags.now records.now.first.now records.now.dependency.now records.now.next.now (length flags.now) (length records.now.next.now - 1)
        (record { marks = marks.old; queue = queue.old; tail = tail }) gone head }
    ensures visited { Visited flags.now (length flags.now)
        (named_by_part records.now.first.now records.now.dependency.now records.now.next.now (length records.now.next.now - 1) queue.old head 4)
        (record { marks = marks.old; queue = queue.old; tail = tail })
        (record { marks = marks.new; queue = queue.new; tail = result.found }) }
    ensures gone_value { result.gone ≡ gone + length (named_by_part records.now.first.now records.now.dependency.now records.now.next.now
        (length records.now.next.now - 1) queue.old head 4) }
{
    let a = first_at(records.first, queue, head);
    let b = first_at(records.first, queue, head + 1);
    let c = first_at(records.first, queue, head + 2);
    let d = first_at(records.first, queue, head + 3);
    follow_four(
        flags,
        records.dependency,
        records.next,
        marks,
        queue,
        tail,
        gone,
        a,
        b,
        c,
        d,
    )
}

// Dependency records laid anew, so that those of one module lie side by side: a walk then reads memory in its order.
#![tactic(auto)]

ghost use Rattle.std.specs.Prelude.{◌≡◌, IfSome, cond, ◌-◌, ◌≤◌, length};
ghost use Rattle.contiguous.specs.Laid.{LayReady, Laying, LayAllReady, AllLaid};
ghost use Rattle.contiguous.specs.Jumps.{is_jump, jumps_of, worth_laying};

use records::Records;

// Where a chain was laid: the record that it begins with, and the first record behind it.
#[derive(Clone, Copy)]
pub struct LaidChain {
    pub first: usize,
    pub end: usize,
}

// Lays the records of a chain from record `at` on, in the first `room` words of two tables. Each is followed by the one laid before it, so the new
// chain names the same modules from the last to the first. Without room for all of it there is no new chain.
fn lay_chain(
    dependency: &[u32],
    next: &[u32],
    to_dependency: &mut [u32],
    to_next: &mut [u32],
    from: usize,
    at: usize,
    room: usize,
) -> Option<LaidChain>
    requires { LayReady dependency.now next.now (length next.now - 1) to_dependency.old to_next.old from at room }
    ensures { IfSome result (λ laid. (laid.end ≤ room) × Laying dependency.now next.now (length next.now - 1) from at
        to_dependency.old to_next.old laid.first laid.end 0 to_dependency.new to_next.new) }
{
    let mut first = 0;
    let mut to = at;
    let mut r = from;
    while r != 0 {
        if room <= to {
            return None;
        }
        to_dependency[to] = dependency[r];
        to_next[to] = first as u32;
        first = to;
        to += 1;
        r = next[r] as usize;
    }
    Some(LaidChain { first, end: to })
}

// Lays the chains of all modules one after the other, in the first `room` words of two tables. Answers how many of these words hold them, record 0
// included; or 0, where chains share so many records that there is no room for each by itself.
pub fn lay_chains(
    records: &Records,
    to_first: &mut [u32],
    to_dependency: &mut [u32],
    to_next: &mut [u32],
    room: usize,
) -> usize
    requires { LayAllReady records.now.first.now records.now.dependency.now records.now.next.now (length records.now.first.now) (length records.now.next.now - 1)
        to_first.old to_dependency.old to_next.old room }
    ensures { AllLaid records.now.first.now records.now.dependency.now records.now.next.now (length records.now.first.now)
        (length records.now.next.now - 1) result to_first.new to_dependency.new to_next.new }
{
    let mut at = 1;
    for (m, from) in records.first.iter().enumerate() {
        let from = *from as usize;
        let Some(laid) = lay_chain(
            records.dependency,
            records.next,
            to_dependency,
            to_next,
            from,
            at,
            room,
        ) else {
            return 0;
        };
        to_first[m] = laid.first as u32;
        at = laid.end;
    }
    at
}

// 1 if a record is followed by another than its neighbour, else 0.
fn jump(r: u32, next: u32) -> usize
    requires { r ≤ 65535 }
    ensures { result ≡ cond (is_jump r next) 1 0 }
{
    ((next != 0) & (next != r + 1)) as usize
}

// How many records are followed by another than their neighbour.
fn jumps(next: &[u32]) -> usize
    requires { (1 ≤ length next.now) × (length next.now ≤ 65536) }
    ensures { result ≡ jumps_of next.now (length next.now - 1) }
{
    let mut count = 0;
    for (i, after) in next[1..].iter().enumerate() {
        count += jump(i as u32 + 1, *after);
    }
    count
}

// Whether records are to be laid anew for a run of so many groups: from sixteen groups on, where 4,096 records or more are followed by another than
// their neighbour. That costs as much as three walks along all of them, and a walk along the new ones takes less than half the time.
pub fn worth_laying(groups: usize, next: &[u32]) -> bool
    requires { (1 ≤ length next.now) × (length next.now ≤ 65536) }
    ensures { result ≡ worth_laying groups next.now (length next.now - 1) }
{
    16 <= groups && 4096 <= jumps(next)
}

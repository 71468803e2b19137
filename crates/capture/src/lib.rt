// The capture of a module: what it reaches along its dependencies through eligible modules.
#![tactic(auto)]

ghost use Rattle.std.specs.Prelude.{◌≡◌, ◌-◌, ◌≤◌, length};
ghost use Rattle.refusal.specs.Answers.{number_or_zero};
ghost use Rattle.refusal.specs.Counts.{record_limit};
ghost use Rattle.refusal.specs.Outcome.{first_number};
ghost use Rattle.walk.specs.Reached.{Marks};
ghost use Rattle.capture.specs.Capture.{Captured};
ghost use Rattle.capture.specs.Start.{StartReady};
ghost use Rattle.capture.specs.Call.{bad_counts, bad_lengths, input_tests, CaptureCall};

use index::ModuleIdx;
use records::Records;
use refusal::Refusal;

// Refusal 1: a count above its limit.
fn bad_counts(n: usize, d: usize) -> bool
    ensures { result ≡ bad_counts n d }
{
    refusal::MODULE_LIMIT < n || refusal::RECORD_LIMIT < d
}

// Refusal 2: a table's length is not the one that its counts imply.
fn bad_lengths(flags: &[u8], records: &Records, n: usize, d: usize) -> bool
    requires { d ≤ record_limit }
    ensures { result ≡ bad_lengths flags.now records.now.first.now records.now.dependency.now records.now.next.now n d }
{
    flags.len() != n
        || records.first.len() != n
        || records.dependency.len() != d + 1
        || records.next.len() != d + 1
}

// Marks what a module captures: nothing if it isn't eligible, it alone with recursion off.
fn capture_from(
    from: ModuleIdx,
    recursive: bool,
    flags: &[u8],
    records: &Records,
    marks: &mut [u8],
    queue: &mut [u32],
)
    requires { StartReady flags.now records.now.first.now records.now.dependency.now records.now.next.now (length flags.now) (length records.now.next.now - 1)
        from.0 marks.old queue.old }
    ensures { Marks (Captured (record {
      n = length flags.now;
      d = length records.now.next.now - 1;
      recursive = recursive;
      from = from.0;
      flags = flags.now;
      first = records.now.first.now;
      dependency = records.now.dependency.now;
      next = records.now.next.now;
    })) (length flags.now) marks.new }
{
    marks.fill(0);
    if !flags::is_eligible_at(flags, from) {
        return;
    }
    marks[from.0 as usize] = 1;
    if !recursive {
        return;
    }
    queue[0] = from.0;
    let mut followed = [0u8; 65536];
    walk::walk::walk(flags, records, marks, queue, &mut followed, 1);
}

// Refuses by the first condition on the input that applies.
fn test_input(
    n: usize,
    d: usize,
    from: ModuleIdx,
    flags: &[u8],
    records: &Records,
) -> Result<(), Refusal>
    ensures { number_or_zero result ≡ first_number (input_tests n d from.0
        flags.now records.now.first.now records.now.dependency.now records.now.next.now) }
{
    if bad_counts(n, d) {
        return Err(Refusal::Count);
    }
    if bad_lengths(flags, records, n, d) {
        return Err(Refusal::Length);
    }
    if records::bad_records(records, n, d) {
        return Err(Refusal::Record);
    }
    if flags::bad_flags(flags, n) {
        return Err(Refusal::Bit);
    }
    if n <= from.0 as usize {
        return Err(Refusal::Number);
    }
    Ok(())
}

// The public call: marks each module that the start captures.
pub fn add_module_and_dependencies_to_group_recursively(
    n: usize,
    d: usize,
    recursive: bool,
    from: ModuleIdx,
    flags: &[u8],
    records: &Records,
    marks: &mut [u8],
    scratch: &mut [u32],
) -> Result<(), Refusal>
    ensures { CaptureCall (record {
      n = n;
      d = d;
      recursive = recursive;
      from = from.0;
      flags = flags.now;
      first = records.now.first.now;
      dependency = records.now.dependency.now;
      next = records.now.next.now;
    }) result (record {
      marks = marks.old;
      scratch = scratch.old;
    }) (record {
      marks = marks.new;
      scratch = scratch.new;
    }) }
{
    test_input(n, d, from, flags, records)?;
    if marks.len() < n {
        return Err(Refusal::Area);
    }
    if scratch.len() < n {
        return Err(Refusal::Scratch);
    }
    capture_from(from, recursive, flags, records, &mut marks[..n], scratch);
    scratch.fill(0);
    Ok(())
}

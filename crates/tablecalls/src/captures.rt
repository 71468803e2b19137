// capture TAG N D RECURSIVE START, then N flags, N first records, D times: MODULE NEXT
ghost use Rattle.std.specs.Prelude.{◌≤◌};

use crate::looks;
use index::ModuleIdx;
use listform::areas;
use records::Records;
use refusal::Refusal;
use textform::reading::Words;
use textform::{entries, out};
use withlines::Form;
use withlines::with::With;

// What a case hands over. The tables have entries past the last, since a line may lend more or fewer of them.
#[derive(Drop)]
struct Call<'a> {
    n: usize,
    d: usize,
    recursive: bool,
    from: ModuleIdx,
    flags: &'a [u8],
    first: &'a [u32],
    dependency: &'a [u32],
    next: &'a [u32],
}

fn read_flags(words: &mut Words, flags: &mut [u8]) -> Option<()> {
    for flag in flags.iter_mut() {
        *flag = words.byte()?;
    }
    Some(())
}

fn read_first(words: &mut Words, first: &mut [u32]) -> Option<()> {
    for record in first.iter_mut() {
        *record = words.short()?;
    }
    Some(())
}

fn read_records(words: &mut Words, dependency: &mut [u32], next: &mut [u32]) -> Option<()> {
    for (module, after) in dependency.iter_mut().zip(next.iter_mut()) {
        *module = words.short()?;
        *after = words.short()?;
    }
    Some(())
}

// Whether every line that spoils the call is one that it can have.
fn all_known(with: With) -> bool {
    withlines::all_known(
        with,
        &[
            Form::length(b"flags"),
            Form::length(b"first"),
            Form::length(b"dep_module"),
            Form::length(b"dep_next"),
            Form::count(b"n"),
            Form::count(b"d"),
            Form::areas(2),
        ],
    )
}

// Runs a case, given the lines before it that spoil it. Nothing if it can't be read, or is beyond the limits.
pub fn answer(tag: &[u8], mut words: Words, with: With) -> Option<()> {
    let n = words.decimal_within(4097)? as usize;
    let d = words.decimal_within(65535)? as usize;
    let recursive = words.decimal_within(1)? == 1;
    let from = ModuleIdx(words.short()?);
    answer_tables(tag, words, with, n, d, recursive, from)
}

// The same once the words before the flags are read. The tables come first: behind a `?` they would be cleared twice.
fn answer_tables(
    tag: &[u8],
    mut words: Words,
    with: With,
    n: usize,
    d: usize,
    recursive: bool,
    from: ModuleIdx,
) -> Option<()>
    requires { (n ≤ 4097) × (d ≤ 65535) }
{
    let mut flags = [0u8; 4098];
    let mut first = [0u32; 4098];
    let mut dependency = [0u32; 65538];
    let mut next = [0u32; 65538];
    // Record 0 is never read: it holds numbers out of every range.
    dependency[0] = u32::MAX;
    next[0] = u32::MAX;
    read_flags(&mut words, &mut flags[..n])?;
    read_first(&mut words, &mut first[..n])?;
    read_records(&mut words, &mut dependency[1..d + 1], &mut next[1..d + 1])?;
    if !words.ended() || !all_known(with) {
        return None;
    }
    out::begin(b"capture", tag);
    let call = Call {
        n,
        d,
        recursive,
        from,
        flags: &flags,
        first: &first,
        dependency: &dependency,
        next: &next,
    };
    run(tag, with, &call);
    Some(())
}

// The call and its answer. Areas hold a pattern on entry, and unless a line says otherwise are three entries longer than is needed.
fn run(tag: &[u8], with: With, call: &Call) {
    let mut marks = [areas::BYTE; 4100];
    let mut scratch = [areas::NUMBER; 4100];
    let records = call.d.wrapping_add(1);
    let spare = call.n.wrapping_add(3);
    let count = withlines::count(with, b"n", call.n);
    let lent = withlines::area(with, 1, spare);
    let tables = Records {
        first: entries::front(call.first, withlines::length(with, b"first", call.n)),
        dependency: entries::front(
            call.dependency,
            withlines::length(with, b"dep_module", records),
        ),
        next: entries::front(call.next, withlines::length(with, b"dep_next", records)),
    };
    let answer = capture::add_module_and_dependencies_to_group_recursively(
        count,
        withlines::count(with, b"d", call.d),
        call.recursive,
        call.from,
        entries::front(call.flags, withlines::length(with, b"flags", call.n)),
        &tables,
        areas::lent(&mut marks, withlines::area(with, 0, spare)),
        areas::lent(&mut scratch, lent),
    );
    show(tag, answer, count, lent, &marks, &scratch);
}

// The answer. Marks past the modules are as they were, and all of the lent scratch is zeros.
fn show(
    tag: &[u8],
    answer: Result<(), Refusal>,
    n: usize,
    lent: usize,
    marks: &[u8; 4100],
    scratch: &[u32; 4100],
) {
    match answer {
        Err(refusal) => {
            out::refused(refusal.number());
            looks::untouched(tag, b"marks were written", marks, 0);
            looks::scratch(tag, 0, scratch);
        }
        Ok(()) => {
            show_marks(&marks[..n.min(4096)]);
            looks::untouched(tag, b"marks were written", marks, n);
            looks::scratch(tag, lent, scratch);
        }
    }
}

fn show_marks(marks: &[u8]) {
    out::blank();
    for mark in marks {
        out::number(*mark);
    }
    out::line_end();
}

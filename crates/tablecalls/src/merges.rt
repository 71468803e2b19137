// merge TAG K E THRESHOLD, then K times: SIZE W0 W1 W2 W3
ghost use Rattle.std.specs.Prelude.{◌≤◌};

use crate::looks;
use listform::areas;
use refusal::Refusal;
use textform::reading::Words;
use textform::{entries, out};
use withlines::Form;
use withlines::with::With;

// What a case hands over. The tables have entries past the last, since a line may lend more or fewer of them.
#[derive(Drop)]
struct Call<'a> {
    k: usize,
    entries: usize,
    sizes: &'a [u64],
    bits: &'a [u64],
    threshold: f64,
    ghost within_limits: { k ≤ 4097 },
}

fn read_bits(words: &mut Words, bits: &mut [u64]) -> Option<()> {
    for word in bits.iter_mut() {
        *word = words.hexadecimal()?;
    }
    Some(())
}

fn read_subgroups(words: &mut Words, sizes: &mut [u64], bits: &mut [u64]) -> Option<()> {
    for (size, bits) in sizes.iter_mut().zip(bits.chunks_exact_mut(4)) {
        *size = words.decimal()?;
        read_bits(words, bits)?;
    }
    Some(())
}

// Whether every line that spoils the call is one that it can have.
fn all_known(with: With) -> bool {
    withlines::all_known(
        with,
        &[
            Form::length(b"sizes"),
            Form::length(b"bits"),
            Form::count(b"k"),
            Form::count(b"e"),
            Form::areas(3),
        ],
    )
}

// Runs a case, given the lines before it that spoil it. Nothing if it can't be read, or is beyond the limits.
pub fn answer(tag: &[u8], mut words: Words, with: With) -> Option<()> {
    let k = words.decimal_within(4097)? as usize;
    let entries = words.decimal()? as usize;
    // An absent threshold is 0.
    let threshold = words.limit()?.unwrap_or(0.0);
    answer_tables(tag, words, with, k, entries, threshold)
}

// The same once the words before the subgroups are read. The tables come first: behind a `?` they would be cleared twice.
fn answer_tables(
    tag: &[u8],
    mut words: Words,
    with: With,
    k: usize,
    entries: usize,
    threshold: f64,
) -> Option<()>
    requires { k ≤ 4097 }
{
    let mut sizes = [0u64; 4098];
    let mut bits = [0u64; 16392];
    read_subgroups(&mut words, &mut sizes[..k], &mut bits[..4 * k])?;
    if !words.ended() || !all_known(with) {
        return None;
    }
    out::begin(b"merge", tag);
    let call = Call {
        k,
        entries,
        sizes: &sizes,
        bits: &bits,
        threshold,
    };
    run(tag, with, &call);
    Some(())
}

// The length of an area in subgroups: three more than are needed, unless a line says otherwise.
fn lent(with: With, place: usize, k: usize) -> usize
    requires { k ≤ 4097 }
    ensures { result ≤ 4100 }
{
    withlines::area(with, place, k + 3).min(4100)
}

// The call and its answer. Areas hold a pattern on entry.
fn run(tag: &[u8], with: With, call: &Call) {
    let k = call.k;
    let mut final_numbers = [areas::NUMBER; 4100];
    let mut final_sizes = [areas::WORD; 4100];
    let mut final_bits = [areas::WORD; 16400];
    let count = withlines::count(with, b"k", k);
    let answer = merge::merge_entries_aware_subgroups(
        count,
        withlines::count(with, b"e", call.entries),
        entries::front(call.sizes, withlines::length(with, b"sizes", k)),
        entries::front(call.bits, withlines::length(with, b"bits", 4 * k)),
        call.threshold,
        areas::lent(&mut final_numbers, lent(with, 0, k)),
        areas::lent(&mut final_sizes, lent(with, 1, k)),
        areas::lent(&mut final_bits, 4 * lent(with, 2, k)),
    );
    let written = show(answer, count, &final_numbers, &final_sizes, &final_bits);
    look(tag, written, &final_numbers, &final_sizes, &final_bits);
}

// Every entry past those that were written is as it was.
fn look(tag: &[u8], written: usize, numbers: &[u32; 4100], sizes: &[u64; 4100], bits: &[u64; 16400])
    requires { written ≤ 4096 }
{
    looks::untouched(tag, b"numbers were written", numbers, written);
    looks::untouched(tag, b"sizes were written", sizes, written);
    looks::untouched(tag, b"bits were written", bits, 4 * written);
}

// Answers how many subgroups were written.
fn show(
    answer: Result<(), Refusal>,
    k: usize,
    numbers: &[u32; 4100],
    sizes: &[u64; 4100],
    bits: &[u64; 16400],
) -> usize
    ensures { result ≤ 4096 }
{
    match answer {
        Err(refusal) => {
            out::refused(refusal.number());
            0
        }
        Ok(()) => {
            let written = k.min(4096);
            show_all(&numbers[..written], sizes, bits);
            written
        }
    }
}

fn show_subgroup(number: u32, size: u64, bits: &[u64]) {
    out::blank();
    out::number(number);
    out::colon();
    out::number(size);
    for word in bits {
        out::word(*word);
    }
}

fn show_all(numbers: &[u32], sizes: &[u64], bits: &[u64]) {
    for ((number, size), bits) in numbers.iter().zip(sizes).zip(bits.chunks_exact(4)) {
        show_subgroup(*number, *size, bits);
    }
    out::line_end();
}

// Runs recorded cases of the leaf calls: reads one case a line from standard input, after the lines that spoil it, and writes each answer in
// the form of the records. Every entry of every lent area is looked at; what is wrong is a line that begins with `!`.
// Limits: an input of less than 1,048,576 bytes; in a case 4,097 modules or subgroups, 65,535 dependency records, 16,384 bytes of ids, areas of
// 4,100 entries.
#![tactic(auto)]

mod cuts;
mod filters;
mod similar;

use tablecalls::{captures, merges};
use textform::reading::Words;
use textform::{entries, out};
use withlines::with::With;
use withlines::{all_known, cases};

// Runs a case, given the lines before it that spoil it. Nothing if it can't be read, or is beyond the limits. No line can spoil the last two.
fn answer(mut words: Words, with: With) -> Option<()> {
    let call = words.next()?;
    let tag = words.next()?;
    match call {
        b"cut" => cuts::answer(tag, words, with),
        b"merge" => merges::answer(tag, words, with),
        b"capture" => captures::answer(tag, words, with),
        b"sim" if all_known(with, &[]) => similar::answer(tag, words),
        b"filter" if all_known(with, &[]) => filters::answer(tag, words),
        _ => None,
    }
}

// The array as a reference: a function that holds it and takes a part of it is checked for minutes.
fn read_input(input: &mut [u8; 1048576]) -> usize {
    io::read_full(0, input)
}

fn answer_input(input: &[u8; 1048576], n: usize) {
    cases::answer_all(entries::front(input, n), answer);
}

fn main() {
    let mut input = [0u8; 1048576];
    let n = read_input(&mut input);
    if n == 1048576 {
        out::text(b"! input\n");
        return;
    }
    answer_input(&input, n);
}

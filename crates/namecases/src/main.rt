// Runs recorded cases of the names of chunks: reads one case a line from standard input, after the lines that spoil it, and writes each answer
// in the form of the records. Every byte of the lent area is looked at; what is wrong is a line that begins with `!`.
// Limits: an input of less than 262,144 bytes; in a case 4,097 names of groups and as many of entries, 16,384 bytes of each, and of the hash;
// tables of 65,540 offsets, an area of 16,500 bytes.
#![tactic(auto)]

mod answers;
mod chunk;
mod naming;
mod spoiling;
mod tables;

use textform::reading::Words;
use textform::{entries, out};
use withlines::cases;
use withlines::with::With;

// Runs a case, given the lines before it that spoil it. Nothing if it can't be read, or is beyond the limits.
fn answer(mut words: Words, with: With) -> Option<()> {
    let call = words.next()?;
    let tag = words.next()?;
    match call {
        b"name" => naming::answer(tag, words, with),
        _ => None,
    }
}

// The array as a reference: a function that holds it and takes a part of it is checked for minutes.
fn read_input(input: &mut [u8; 262144]) -> usize {
    io::read_full(0, input)
}

fn answer_input(input: &[u8; 262144], n: usize) {
    cases::answer_all(entries::front(input, n), answer);
}

fn main() {
    let mut input = [0u8; 262144];
    let n = read_input(&mut input);
    if n == 262144 {
        out::text(b"! input\n");
        return;
    }
    answer_input(&input, n);
}

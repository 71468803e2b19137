// Runs recorded cases of Chunks: reads whole builds from standard input, and writes each answer in the form of the records. Every entry of
// every lent area is looked at.
// Limits: an input of less than 1,048,576 bytes; in a case 64 modules, 96 groups, 128 dependency records, 1,024 answers before the last
// group's, 16,384 bytes of ids, areas of 128 entries, 73,728 words of scratch.
#![tactic(auto)]

mod cases;

use buildlines::tables::prefix;

// The array as a reference: a function that holds it and takes a part of it is checked for minutes.
fn read_input(input: &mut [u8; 1048576]) -> usize {
    io::read_full(0, input)
}

fn answer_input(input: &[u8; 1048576], n: usize) {
    cases::answer_all(prefix(input, n));
}

fn main() {
    let mut input = [0u8; 1048576];
    let n = read_input(&mut input);
    if n == 1048576 {
        textform::out::text(b"! input\n");
        return;
    }
    answer_input(&input, n);
}

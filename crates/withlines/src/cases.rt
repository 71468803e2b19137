// The cases of a text, one a line, each after the lines that spoil it. Empty lines and those that begin with # are passed over.
use crate::with::{With, spoils};
use textform::out;
use textform::reading::{Lines, Words};

enum Line {
    PassedOver,
    // `with ..`: spoils the next case, and is read with it.
    Spoiling,
    Case,
}

fn kind_of(line: &[u8]) -> Line {
    match Words::of(line).next() {
        None | Some([b'#', ..]) => Line::PassedOver,
        Some(_) if spoils(line) => Line::Spoiling,
        Some(_) => Line::Case,
    }
}

// Answers each case, given its words and the lines that spoil it. A line that `answer` refuses is told by its number.
pub fn answer_all<F: Fn(Words, With) -> Option<()>>(input: &[u8], answer: F)
    requires { F.IsAlwaysCallable answer }
{
    let mut number = 0u64;
    let mut at = 0usize;
    // From the first line that spoils the next case to the end of the last.
    let mut from = 0usize;
    let mut to = 0usize;
    for line in (Lines { rest: input }) {
        number = number.wrapping_add(1);
        let next = at.wrapping_add(line.len()).wrapping_add(1);
        match kind_of(line) {
            Line::PassedOver => {}
            Line::Spoiling => {
                if from == to {
                    from = at;
                }
                to = next;
            }
            Line::Case => {
                let text = input.get(from..to).unwrap_or(&[]);
                if answer(Words::of(line), With { text }).is_none() {
                    out::unread(number);
                }
                from = next;
                to = next;
            }
        }
        at = next;
    }
}

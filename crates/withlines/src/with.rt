// The lines before a case that spoil it. They stay in the text that was read, so that there may be any number of them.
use textform::reading::{Lines, Words};

// A part of the text before a case. Of its lines, those that begin with the word `with` spoil the case.
#[derive(Clone, Copy)]
pub struct With<'a> {
    pub text: &'a [u8],
}

pub(crate) fn spoils(line: &[u8]) -> bool {
    match Words::of(line).next() {
        Some(b"with") => true,
        _ => false,
    }
}

impl<'a> With<'a> {
    pub(crate) fn lines(&self) -> Lines<'a> {
        Lines { rest: self.text }
    }
}

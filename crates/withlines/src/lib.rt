// Lines that spoil a leaf call before it is handed over: `with offsets ..`, `with len TABLE LENGTH`, `with count COUNT VALUE`, `with areas ..`.
// The text before a call is kept as it stands, and looked through for each value that a line of it may change.
#![tactic(auto)]

pub mod cases;
pub mod offsets;
pub mod with;

use crate::with::{With, spoils};
use textform::reading::Words;
use textform::values;

// A kind of line, and how many numbers such a line has. Lines of some kinds have a name before the numbers.
#[derive(Clone, Copy)]
pub struct Form<'a> {
    pub kind: &'a [u8],
    pub name: Option<&'a [u8]>,
    pub numbers: usize,
}

impl<'a> Form<'a> {
    pub fn length(table: &'a [u8]) -> Self {
        Form {
            kind: b"len",
            name: Some(table),
            numbers: 1,
        }
    }

    pub fn count(name: &'a [u8]) -> Self {
        Form {
            kind: b"count",
            name: Some(name),
            numbers: 1,
        }
    }

    pub fn areas(numbers: usize) -> Self {
        Self::unnamed(b"areas", numbers)
    }

    pub fn unnamed(kind: &'a [u8], numbers: usize) -> Self {
        Form {
            kind,
            name: None,
            numbers,
        }
    }

    // The words past the kind and the name, if a line is of this form as far as that.
    fn numbers_of<'b>(&self, line: &'b [u8]) -> Option<Words<'b>> {
        let mut words = Words::of(line);
        if words.next()? != b"with".as_slice() {
            return None;
        }
        if words.next()? != self.kind {
            return None;
        }
        if let Some(name) = self.name {
            if words.next()? != name {
                return None;
            }
        }
        Some(words)
    }

    // Whether a line is of this form, with so many numbers and nothing else.
    fn fits(&self, line: &[u8]) -> bool {
        let Some(mut words) = self.numbers_of(line) else {
            return false;
        };
        for _ in 0..self.numbers {
            if words.decimal().is_none() {
                return false;
            }
        }
        words.ended()
    }

    // The numbers of the last line of this form, if there is one.
    fn last<'b>(&self, with: With<'b>) -> Option<Words<'b>> {
        let mut found = None;
        for line in with.lines() {
            found = self.numbers_of(line).or(found);
        }
        found
    }

    // The number at a place of the last line of this form. Without such a line it is another, and where the line has no number there it is 0.
    fn number(&self, with: With, place: usize, otherwise: usize) -> usize {
        match self.last(with) {
            None => otherwise,
            Some(mut words) => words.nth(place).and_then(values::decimal).unwrap_or(0) as usize,
        }
    }
}

// The length of a table.
pub fn length(with: With, table: &[u8], otherwise: usize) -> usize {
    Form::length(table).number(with, 0, otherwise)
}

// A count.
pub fn count(with: With, name: &[u8], otherwise: usize) -> usize {
    Form::count(name).number(with, 0, otherwise)
}

// The length of the area at a place of the call.
pub fn area(with: With, place: usize, otherwise: usize) -> usize {
    Form::areas(0).number(with, place, otherwise)
}

fn is_known(line: &[u8], forms: &[Form]) -> bool {
    forms.iter().any(|form| form.fits(line))
}

// Whether every line that spoils the call is one that it can have.
pub fn all_known(with: With, forms: &[Form]) -> bool {
    with.lines()
        .all(|line| !spoils(line) || is_known(line, forms))
}

// A build in the text form: read, handed over and answered.
#![tactic(auto)]

mod tables;

use buildcalls::Form;
use buildlines::reader::{Reader, Unread};
use buildlines::tables::Tables;
use textform::out;

// Tells what can't be read: a word that begins no case, or the tag of a case.
pub fn unread(what: &[u8]) -> Unread {
    out::text(b"! ");
    out::text(what);
    out::text(b" can't be read, or is beyond the limits\n");
    Unread
}

// Runs the case whose tag has been read.
pub fn answer_case(form: Form, tag: &[u8], reader: &mut Reader) -> Result<(), Unread> {
    let mut tables = Tables::empty();
    let Ok(build) = buildform::read(&mut tables, reader) else {
        return Err(unread(tag));
    };
    buildcalls::answer(form, tag, tables::handed_over(&build, &tables), build.lent);
    Ok(())
}

// The cases of a text, one after another. What can't be read is told by a line that begins with `!`, and ends the text.
use buildcalls::Form;
use buildlines::reader::{Reader, Unread};

// Passes over a comment, or runs a case. There is none at the end.
fn answer_next(reader: &mut Reader) -> Result<(), Unread> {
    match reader.word()? {
        [b'#', ..] => {
            reader.pass_line();
            Ok(())
        }
        b"chunks" => {
            let tag = reader.word().unwrap_or(b"");
            buildtables::answer_case(Form::Text, tag, reader)
        }
        command => Err(buildtables::unread(command)),
    }
}

// A case or a comment has a byte at least, so that there are no more of them than bytes.
pub fn answer_all(text: &[u8]) {
    let mut reader = Reader::new(text);
    for _ in 0..text.len() {
        if answer_next(&mut reader).is_err() {
            return;
        }
    }
}

// sim TAG ID ID
use textform::out;
use textform::reading::Words;

pub fn answer(tag: &[u8], mut words: Words) -> Option<()> {
    let mut left = [0u8; 16384];
    let mut right = [0u8; 16384];
    let left_bytes = words.bytes(&mut left)?;
    let right_bytes = words.bytes(&mut right)?;
    if !words.ended() {
        return None;
    }
    out::begin(b"sim", tag);
    run(&left[..left_bytes], &right[..right_bytes]);
    Some(())
}

// The call and its answer.
fn run(left: &[u8], right: &[u8]) {
    match similarity::stable_id_similarity(left, right) {
        Err(refusal) => out::refused(refusal.number()),
        Ok(score) => {
            out::blank();
            out::number(score);
            out::line_end();
        }
    }
}

// Lines `with offsets O0 ..`, or of another kind that gives offsets: others than those of the words of a case, which lie one after another.
use crate::Form;
use crate::with::With;

// Other offsets, if a line of this kind has them. One that no table can hold stands for the largest, and one that is no number for 0.
pub fn spoil(with: With, kind: &[u8], offsets: &mut [u32]) {
    let Some(mut words) = Form::unnamed(kind, offsets.len()).last(with) else {
        return;
    };
    for offset in offsets.iter_mut() {
        *offset = u32::try_from(words.decimal().unwrap_or(0)).unwrap_or(u32::MAX);
    }
}

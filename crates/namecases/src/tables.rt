// The names of groups, or of entries, as a call takes them: their bytes one after another, and where each begins and the last ends.
ghost use Rattle.std.specs.Prelude.{◌≤◌};
ghost use Rattle.std.specs.Option.{IfSome};

use textform::entries;
use textform::reading::Words;
use withlines::with::With;

// So many names. The table has entries past the last, since a line may lend more or fewer of them.
#[derive(Clone, Copy)]
pub struct Names<'a> {
    pub count: usize,
    pub bytes: &'a [u8],
    pub offsets: &'a [u32],
}

impl<'a> Names<'a> {
    // The offsets that are lent: one more than there are names, unless a line of this kind says otherwise.
    pub fn lent_offsets(&self, with: With, kind: &[u8]) -> &'a [u32] {
        let length = withlines::length(with, kind, self.count.wrapping_add(1));
        entries::front(self.offsets, length)
    }
}

// The bytes of names, and the offset past each. Answers how many bytes they are.
pub fn read(words: &mut Words, bytes: &mut [u8; 16384], offsets: &mut [u32]) -> Option<usize>
    ensures { IfSome result (λ n. n ≤ 16384) }
{
    let mut end = 0;
    for offset in offsets.iter_mut() {
        end += words.bytes(&mut bytes[end..])?;
        *offset = end as u32;
    }
    Some(end)
}

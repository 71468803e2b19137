// The table of stable ids: one byte slice, and for each id where it begins, with the end of the last.
ghost use Rattle.std.specs.Prelude.{◌≡◌, ℕ, ◌<◌, get_or};
ghost use Rattle.ids.specs.Parts.{id_at, InTable};

use index::ModuleIdx;

// The id of module m, for sorting and similarity: a part of the caller's slice, handed back as one. The offsets need not last as long as it.
pub fn id_at<'a>(bytes: &'a [u8], offsets: &[u32], m: ModuleIdx) -> &'a [u8]
    requires { InTable bytes.now offsets.now m.0 }
    ensures { result.now ≡ id_at bytes.now offsets.now m.0 }
{
    let at = m.0 as usize;
    let start = offsets[at] as usize;
    let end = offsets[at + 1] as usize;
    &bytes[start..end]
}

#[derive(Clone, Copy)]
pub struct Ids<'a> {
    pub bytes: &'a [u8],
    pub offsets: &'a [u32],
    ghost are_bytes: { (i : ℕ) → get_or bytes.now i 0 < 256 },
}

impl<'a> Ids<'a> {
    pub fn id_at(&self, m: ModuleIdx) -> &'a [u8]
        requires { InTable self.now.bytes.now self.now.offsets.now m.0 }
        ensures { result.now ≡ id_at self.now.bytes.now self.now.offsets.now m.0 }
    {
        id_at(self.bytes, self.offsets, m)
    }
}

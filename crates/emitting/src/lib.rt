// Chunks that are emitted: the modules' chunk numbers and the chunk records.
#![tactic(auto)]

pub mod emit;
pub mod members;
pub mod records;

ghost use Rattle.std.specs.Prelude.{◌≡◌, ◌<◌, ◌^◌, length};

// The lent areas that a run writes as it goes: each module's chunk number plus 1, and of each chunk's record its group, name, size, entry bits
// and mark.
#[derive(Drop)]
pub struct ChunkAreas<'a> {
    pub chunk_of: &'a mut [u32],
    pub group_of: &'a mut [u32],
    pub name_of: &'a mut [u32],
    pub size_of: &'a mut [f64],
    pub bits_of: &'a mut [u64],
    pub mark_of: &'a mut [u8],
}

impl ChunkAreas<'_> {
    // How many records have room. The place of a record is below it, and so can't wrap.
    pub fn room(&self) -> usize
        ensures count { result ≡ length self.now.group_of.now }
        ensures small { result < 2 ^ 63 }
    {
        self.group_of.len()
    }
}

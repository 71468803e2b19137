// The three kinds of number that are kept apart in signatures. Tables hold them as plain numbers.
#![tactic(auto)]

// The number under which the host loaded a module.
#[derive(Clone, Copy)]
pub struct ModuleIdx(pub u32);

// The number of a chunk, counted on from the chunks on entry.
#[derive(Clone, Copy)]
pub struct ChunkIdx(pub u32);

// The number of a dependency record. Record 0 ends a chain and is never read.
#[derive(Clone, Copy)]
pub struct RecordIdx(pub u32);

// Chunks for programs that print what comes of it: the call alone, with no contract but that it is safe and ends. What uses this crate is proved
// without the facts of the call, which are many.
#![tactic(auto)]

use buildlines::counts::Counts;
use emitting::ChunkAreas;
use ids::parts::Ids;
use options::Options;
use options::tables::Groups;
use records::Records;
use refusal::Refusal;

#[derive(Clone, Copy)]
pub struct ModuleTables<'a> {
    pub flags: &'a [u8],
    pub sizes: &'a [u64],
    pub orders: &'a [u32],
    pub shares: &'a [u32],
    pub tags: &'a [u64],
    pub bits: &'a [u64],
    pub ids: Ids<'a>,
}

#[derive(Clone, Copy)]
pub struct Build<'a> {
    pub counts: Counts,
    pub options: Options,
    pub modules: ModuleTables<'a>,
    pub records: Records<'a>,
    pub groups: Groups<'a>,
    pub answers: &'a [u32],
}

// The table of ids over its two slices.
pub fn ids_of<'a>(bytes: &'a [u8], offsets: &'a [u32]) -> Ids<'a> {
    Ids { bytes, offsets }
}

// Answers how many chunks there are.
pub fn split(
    build: Build,
    chunks: &mut ChunkAreas,
    next_of: &mut [u32],
    first_of: &mut [u32],
    scratch: &mut [u32],
) -> Result<usize, Refusal> {
    let Counts {
        n,
        g,
        e,
        k,
        d,
        on_entry,
    } = build.counts;
    let ModuleTables {
        flags,
        sizes,
        orders,
        shares,
        tags,
        bits,
        ids,
    } = build.modules;
    chunks::split(
        n,
        g,
        e,
        k,
        d,
        flags,
        sizes,
        orders,
        shares,
        tags,
        bits,
        &ids,
        &build.records,
        build.options,
        &build.groups,
        build.answers,
        on_entry,
        chunks,
        next_of,
        first_of,
        scratch,
    )
}

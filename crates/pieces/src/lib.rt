// Modules above the maximum, in id order, emitted in pieces.
#![tactic(auto)]

ghost use Rattle.oversized.specs.Cutting.{Lent};
ghost use Rattle.pieces.specs.Chunks.{chunks_of, PiecesReady, Converted};
ghost use Rattle.emitting.specs.Emitted.{work, SameAreas};

use emitting::ChunkAreas;
use emitting::emit::{Head, emit_parts};
use ids::parts::Ids;
use index::ChunkIdx;
use oversized::pieces::split_oversized;

// Emits a chunk for each piece, or one for all modules if no cut is allowed. Five areas hold what the cuts read, and where the pieces begin, their sizes
// and their marks.
fn emit_pieces(
    head: Head,
    total: f64,
    minimum: f64,
    maximum: f64,
    sizes: &[u64],
    bits: &[u64],
    ids: &Ids,
    order: &[u32],
    number: ChunkIdx,
    at: usize,
    areas: &mut ChunkAreas,
    similar: &mut [u32],
    sums: &mut [f64],
    starts: &mut [u32],
    piece_sizes: &mut [f64],
    marks: &mut [u8],
) -> usize
    requires pieces_ready { PiecesReady ids.now.bytes.now ids.now.offsets.now sizes.now order.now total bits.now (work areas.old) number.0 at }
    requires lent { Lent order.now similar.old sums.old starts.old piece_sizes.old marks.old }
    ensures emitted { Converted (chunks_of ids.now.bytes.now ids.now.offsets.now sizes.now head minimum maximum order.now)
        bits.now number.0 at result (work areas.old) (work areas.new) }
    ensures same { SameAreas areas.old areas.new }
{
    let count = split_oversized(
        ids,
        sizes,
        order,
        total,
        minimum,
        maximum,
        similar,
        sums,
        starts,
        piece_sizes,
        marks,
    );
    emit_parts(
        head,
        order,
        &starts[..count],
        &piece_sizes[..count],
        &marks[..count],
        bits,
        number,
        at,
        areas,
    );
    count
}

// The same over areas of its own. Few modules get short ones, since an area is written whole when it is made.
pub fn emit_oversized(
    head: Head,
    total: f64,
    minimum: f64,
    maximum: f64,
    sizes: &[u64],
    bits: &[u64],
    ids: &Ids,
    order: &[u32],
    number: ChunkIdx,
    at: usize,
    areas: &mut ChunkAreas,
) -> usize
    requires { PiecesReady ids.now.bytes.now ids.now.offsets.now sizes.now order.now total bits.now (work areas.old) number.0 at }
    ensures emitted { Converted (chunks_of ids.now.bytes.now ids.now.offsets.now sizes.now head minimum maximum order.now)
        bits.now number.0 at result (work areas.old) (work areas.new) }
    ensures same { SameAreas areas.old areas.new }
{
    let n = order.len();
    if n <= 256 {
        let mut similar = [0u32; 256];
        let mut sums = [0.0f64; 256];
        let mut starts = [0u32; 256];
        let mut piece_sizes = [0.0f64; 256];
        let mut marks = [0u8; 256];
        return emit_pieces(
            head,
            total,
            minimum,
            maximum,
            sizes,
            bits,
            ids,
            order,
            number,
            at,
            areas,
            &mut similar[..n],
            &mut sums[..n],
            &mut starts,
            &mut piece_sizes,
            &mut marks,
        );
    }
    let mut similar = [0u32; 4096];
    let mut sums = [0.0f64; 4096];
    let mut starts = [0u32; 4096];
    let mut piece_sizes = [0.0f64; 4096];
    let mut marks = [0u8; 4096];
    emit_pieces(
        head,
        total,
        minimum,
        maximum,
        sizes,
        bits,
        ids,
        order,
        number,
        at,
        areas,
        &mut similar[..n],
        &mut sums[..n],
        &mut starts,
        &mut piece_sizes,
        &mut marks,
    )
}

// One call of Chunks with the tables of the largest build, and its answer.
#![tactic(auto)]

use emitting::ChunkAreas;
use largesttables::change::Change;
use largesttables::counts;
use listform::areas;
use plainsplit::Build;

// The areas hold a pattern before the call, and are three entries longer than is needed.
pub fn answer(change: Change, build: Build) {
    let lent = counts::lent_under(change);
    let mut chunk_of = [areas::NUMBER; 4099];
    let mut next_of = [areas::NUMBER; 4099];
    let mut first_of = [areas::NUMBER; 4099];
    let mut group_of = [areas::NUMBER; 4099];
    let mut name_of = [areas::NUMBER; 4099];
    let mut size_of = [areas::SIZE; 4099];
    let mut bits_of = [areas::WORD; 16396];
    let mut mark_of = [areas::BYTE; 4099];
    let mut scratch = [areas::NUMBER; 393219];
    let mut chunks = ChunkAreas {
        chunk_of: areas::lent(&mut chunk_of, lent.chunk_of),
        group_of: areas::lent(&mut group_of, lent.group_of),
        name_of: areas::lent(&mut name_of, lent.name_of),
        size_of: areas::lent(&mut size_of, lent.size_of),
        bits_of: areas::lent(&mut bits_of, lent.bits_of),
        mark_of: areas::lent(&mut mark_of, lent.mark_of),
    };
    let answer = plainsplit::split(
        build,
        &mut chunks,
        areas::lent(&mut next_of, lent.next_of),
        areas::lent(&mut first_of, lent.first_of),
        areas::lent(&mut scratch, lent.scratch),
    );
    let held = largestlist::areas::Areas {
        chunk_of: &chunk_of,
        next_of: &next_of,
        first_of: &first_of,
        group_of: &group_of,
        name_of: &name_of,
        size_of: &size_of,
        bits_of: &bits_of,
        mark_of: &mark_of,
        scratch: &scratch,
    };
    held.show(answer);
}

// One call of Chunks, and its answer.
#![tactic(auto)]

mod chunk_list;

use buildlines::counts::Lent;
use emitting::ChunkAreas;
use listform::areas;
use listform::list::ChunkList;
use plainsplit::Build;

// How the answer is printed: in the text form, with what the areas show to be wrong, or as a table of the chunks.
#[derive(Clone, Copy)]
pub enum Form {
    Text,
    Table,
}

// Lends areas with a pattern in them, calls, and shows the answer.
pub fn answer(form: Form, tag: &[u8], build: Build, lent: Lent) {
    let mut chunk_of = [areas::NUMBER; 128];
    let mut next_of = [areas::NUMBER; 128];
    let mut first_of = [areas::NUMBER; 128];
    let mut group_of = [areas::NUMBER; 128];
    let mut name_of = [areas::NUMBER; 128];
    let mut size_of = [areas::SIZE; 128];
    let mut bits_of = [areas::WORD; 512];
    let mut mark_of = [areas::BYTE; 128];
    let mut scratch = [areas::NUMBER; 73728];
    let mut chunks = ChunkAreas {
        chunk_of: areas::lent(&mut chunk_of, lent.chunk_of),
        group_of: areas::lent(&mut group_of, lent.group_of),
        name_of: areas::lent(&mut name_of, lent.name_of),
        size_of: areas::lent(&mut size_of, lent.size_of),
        bits_of: areas::lent(&mut bits_of, lent.bits_of),
        mark_of: areas::lent(&mut mark_of, lent.mark_of),
    };
    let answer = plainsplit::split(
        build,
        &mut chunks,
        areas::lent(&mut next_of, lent.next_of),
        areas::lent(&mut first_of, lent.first_of),
        areas::lent(&mut scratch, lent.scratch),
    );
    let list = ChunkList {
        chunk_of: &chunk_of,
        next_of: &next_of,
        first_of: &first_of,
        group_of: &group_of,
        name_of: &name_of,
        size_of: &size_of,
        bits_of: &bits_of,
        mark_of: &mark_of,
        scratch: &scratch,
    };
    match form {
        Form::Text => {
            let n = build.counts.n.min(128);
            chunk_list::show_text(list, tag, answer, n, lent.scratch);
        }
        Form::Table => chunk_list::show_table(list, answer),
    }
}

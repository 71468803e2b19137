// What is printed of the areas after a call.
ghost use Rattle.std.specs.Prelude.{◌≤◌};

use chunktable::ChunkTable;
use listform::list::ChunkList;
use listform::looks;
use refusal::Refusal;
use textform::out;

// The chunks as a table.
pub fn show_table(list: ChunkList, answer: Result<usize, Refusal>) {
    match answer {
        Err(refusal) => chunktable::refused(refusal.number()),
        Ok(count) => table(list).chunks(count),
    }
}

fn table(list: ChunkList<'_>) -> ChunkTable<'_> {
    let ChunkList {
        chunk_of,
        next_of,
        first_of,
        group_of,
        name_of,
        size_of,
        ..
    } = list;
    ChunkTable {
        chunk_of,
        next_of,
        first_of,
        group_of,
        name_of,
        size_of,
    }
}

// The text form, over n modules: the list, and what the areas show to be wrong.
pub fn show_text(
    list: ChunkList,
    tag: &[u8],
    answer: Result<usize, Refusal>,
    n: usize,
    lent_scratch: usize,
)
    requires { n ≤ 128 }
{
    out::begin(b"chunks", tag);
    match answer {
        Err(refusal) => {
            out::refused(refusal.number());
            list.look_at_modules(tag, 0);
            list.look_at_records(tag, 0);
            list.look_at_scratch(tag, 0);
        }
        Ok(count) => {
            out::blank();
            out::number(count as u64);
            out::line_end();
            show_chunks(list, tag, count.min(n), n);
            list.look_at_cleared_scratch(tag, lent_scratch);
        }
    }
}

fn show_chunks(list: ChunkList, tag: &[u8], made: usize, n: usize)
    requires { (made ≤ 128) × (n ≤ 128) }
{
    let good = list.chunks(made, n);
    list.chunk_of_modules(n);
    if !good {
        looks::warn(tag, b"the chain of a chunk leaves the modules");
    }
    if list.any_loose(n) {
        looks::warn(tag, b"a module of no chunk has a next one");
    }
    list.look_at_modules(tag, n);
    list.look_at_records(tag, made);
}

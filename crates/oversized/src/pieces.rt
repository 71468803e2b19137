// The pieces of modules in id order. One pair of areas holds where they begin and their sizes: the finished ones from the front, the rightmost
// first, and from the back those that are still to be looked at, of which the next one ends where the finished ones begin. Finished ones have a mark.
ghost use Rattle.std.specs.Prelude.{◌≡◌, ◌+◌, ◌≤◌, length};
ghost use Rattle.cut.specs.Call.{chosen_of};
ghost use Rattle.cut.specs.Tables.{Tabled};
ghost use Rattle.settling.specs.Pieces.{pieces_of};
ghost use Rattle.oversized.specs.Neighbours.{Neighbours, Cuttables};
ghost use Rattle.oversized.specs.Stores.{Pushable, Pushed, Endable, Ended};
ghost use Rattle.oversized.specs.Cutting.{cutting_of, cut_within, Pending, Lent, Cutted};

use crate::marks::mark_by;
use crate::neighbours::{fill_similar, fill_sums};
use cut::tabled::pick_by_similarity;
use cut::{Cut, CutPoint};
use ids::parts::Ids;

// The cut of modules of a total size, if they are above the maximum and one is allowed.
fn cut_within(similar: &[u32], sums: &[f64], total: f64, minimum: f64, maximum: f64) -> Cut
    requires { (1 ≤ length similar.now) × (length similar.now ≤ length sums.now) }
    ensures { (m : Tabled similar.now sums.now total) → chosen_of result ≡ cut_within m.ids m.sizes total minimum maximum }
{
    if maximum < total {
        return pick_by_similarity(similar, sums, total, minimum, maximum);
    }
    Cut::NoneAllowed
}

// The two pieces of a cut take the place of the one that was cut: the right one is looked at next.
fn push_pieces(starts: &mut [u32], sizes: &mut [f64], top: usize, start: usize, point: CutPoint)
    requires { Pushable starts.old sizes.old top (start + point.index) }
    ensures { Pushed starts.old sizes.old top start point starts.new sizes.new }
{
    starts[top - 1] = (start + point.index) as u32;
    sizes[top] = point.left_size;
    sizes[top - 1] = point.right_size;
}

// A piece that stays whole.
fn end_piece(
    starts: &mut [u32],
    sizes: &mut [f64],
    marks: &mut [u8],
    count: usize,
    start: usize,
    size: f64,
    mark: u8,
)
    requires { Endable starts.old sizes.old marks.old count start }
    ensures { Ended starts.old sizes.old marks.old count start size mark
        starts.new sizes.new marks.new }
{
    starts[count] = start as u32;
    sizes[count] = size;
    marks[count] = mark;
}

// Cuts modules that two tables are of into pieces, the rightmost first. Answers how many there are.
fn cut_pieces(
    similar: &[u32],
    sums: &[f64],
    total: f64,
    minimum: f64,
    maximum: f64,
    starts: &mut [u32],
    piece_sizes: &mut [f64],
    marks: &mut [u8],
) -> usize
    requires { Cuttables similar.now sums.now total starts.old piece_sizes.old marks.old }
    ensures { (m : Neighbours similar.now sums.now total) → Cutted
        (cutting_of m.bytes m.offsets m.sizes minimum maximum)
        (pieces_of (cutting_of m.bytes m.offsets m.sizes minimum maximum) m.order) m.order m.sizes result
        starts.new piece_sizes.new marks.new }
{
    let n = similar.len();
    let mut top = n - 1;
    starts[top] = 0;
    piece_sizes[top] = total;
    let mut end = n;
    let mut count = 0;
    while top < n {
        let start = starts[top] as usize;
        let size = piece_sizes[top];
        let answer = cut_within(
            &similar[start..end],
            &sums[start..end],
            size,
            minimum,
            maximum,
        );
        let Cut::At(point) = answer else {
            let mark = mark_by(maximum, size, answer);
            end_piece(starts, piece_sizes, marks, count, start, size, mark);
            count += 1;
            top += 1;
            end = start;
            continue;
        };
        push_pieces(starts, piece_sizes, top, start, point);
        top -= 1;
    }
    count
}

// Cuts modules in id order into pieces, the rightmost first. Answers how many there are. Neighbours are compared, and sizes added, once for all cuts.
pub fn split_oversized(
    ids: &Ids,
    sizes: &[u64],
    order: &[u32],
    total: f64,
    minimum: f64,
    maximum: f64,
    similar: &mut [u32],
    sums: &mut [f64],
    starts: &mut [u32],
    piece_sizes: &mut [f64],
    marks: &mut [u8],
) -> usize
    requires pending { Pending ids.now.bytes.now ids.now.offsets.now sizes.now order.now total }
    requires lent { Lent order.now similar.old sums.old starts.old piece_sizes.old marks.old }
    ensures { Cutted (cutting_of ids.now.bytes.now ids.now.offsets.now sizes.now minimum maximum)
        (pieces_of (cutting_of ids.now.bytes.now ids.now.offsets.now sizes.now minimum maximum) order.now)
        order.now sizes.now result starts.new piece_sizes.new marks.new }
{
    fill_similar(ids, order, similar);
    fill_sums(sizes, order, sums);
    cut_pieces(
        similar,
        sums,
        total,
        minimum,
        maximum,
        starts,
        piece_sizes,
        marks,
    )
}

// The marked modules in execution order. Of the places, 64 are a block, and only blocks with a marked module are looked through, so that a small set
// costs little among many modules.
ghost use Rattle.std.specs.Prelude.{map, ◌≡◌};
ghost use Rattle.lists.specs.Stored.{stored};
ghost use Rattle.lists.specs.Area.{Holds};
ghost use Rattle.sets.specs.Gathered.{block_of, marked_in, PlacesFree, PlacesAre, BlocksReady, MarkedReady, FoundReady};
ghost use Rattle.sets.specs.Gathered.{HasMark, FrontReady};

// Writes each module's place in execution order.
pub fn store_places(order: &[u32], place: &mut [u32])
    requires { PlacesFree order.now place.old }
    ensures { PlacesAre order.now place.new }
{
    for (i, m) in order.iter().enumerate() {
        place[*m as usize] = i as u32;
    }
}

// Marks the blocks in which the modules of the list have their places.
fn mark_blocks(list: &[u32], place: &[u32], blocks: &mut [u8])
    requires { BlocksReady list.now place.now blocks.old }
    ensures { blocks.new ≡ stored 1 (map (block_of place.now) list.now) blocks.old }
{
    for m in list {
        let at = place[*m as usize];
        blocks[(at / 64) as usize] = 1;
    }
}

// Writes the modules that are marked, in execution order. Answers how many there are.
fn gather_marked(order: &[u32], marks: &[u8], blocks: &[u8], set: &mut [u32]) -> usize
    requires { MarkedReady order.now marks.now blocks.now set.old }
    ensures { Holds (marked_in marks.now order.now) result set.new }
{
    let mut count = 0;
    let mut i = 0;
    // The index jumps over blocks, which no `for` over the order says more plainly.
    while i < order.len() {
        if blocks[i / 64] == 0 {
            i = i / 64 * 64 + 64;
            continue;
        }
        let m = order[i];
        set[count] = m;
        if marks[m as usize] == 1 {
            count += 1;
        }
        i += 1;
    }
    count
}

// The same, of modules that are all on a list.
fn gather_set(order: &[u32], place: &[u32], list: &[u32], marks: &[u8], set: &mut [u32]) -> usize
    requires { FoundReady order.now place.now list.now marks.now set.old }
    ensures { Holds (marked_in marks.now order.now) result set.new }
{
    let mut blocks = [0u8; 64];
    mark_blocks(list, place, &mut blocks);
    gather_marked(order, marks, &blocks, set)
}

// Leaves the modules of a list that are marked, in their order. Answers how many there are.
fn keep_marked(marks: &[u8], list: &mut [u32]) -> usize
    requires { HasMark marks.now list.old }
    ensures { Holds (marked_in marks.now list.old) result list.new }
{
    let mut count = 0;
    for i in 0..list.len() {
        let m = list[i];
        list[count] = m;
        if marks[m as usize] == 1 {
            count += 1;
        }
    }
    count
}

// The modules that a walk found. Where it found its starts alone they stand in execution order already: at the front of the area, with those that a
// walk passes over.
pub fn gather_found(
    alone: bool,
    count: usize,
    order: &[u32],
    place: &[u32],
    list: &[u32],
    marks: &[u8],
    set: &mut [u32],
) -> usize
    requires { FoundReady order.now place.now list.now marks.now set.old × FrontReady alone count order.now marks.now set.old }
    ensures { Holds (marked_in marks.now order.now) result set.new }
{
    if list.is_empty() {
        return 0;
    }
    if alone {
        return keep_marked(marks, &mut set[..count]);
    }
    gather_set(order, place, list, marks, set)
}

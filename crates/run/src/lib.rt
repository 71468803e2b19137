// A run of Chunks over a build that has passed the tests: its chunks are made, and every area is written.
#![tactic(auto)]

ghost use Rattle.std.specs.Prelude.{◌≡◌, ◌≤◌, ◌++◌, length, take, drop, replicate};
ghost use Rattle.run.specs.Made.{Making, ChunksMade};
ghost use Rattle.run.specs.Finished.{Finishing, Finished};
ghost use Rattle.run.specs.Ran.{Running, RunWritten};
ghost use Rattle.emitting.specs.Emitted.{work, SameAreas};

use emitting::ChunkAreas;
use exec_order::listed::keep_eligible;
use groups::convert::convert_groups_to_chunks;
use ids::parts::Ids;
use index::ChunkIdx;
use linking::link;
use options::Settings;
use records::Records;
use turns::into_priority_sorted_groups;

// No module has a chunk number yet.
fn clear_numbers(chunk_of: &mut [u32], n: usize)
    requires { n ≤ length chunk_of.old }
    ensures { chunk_of.new ≡ replicate (length (take n chunk_of.old)) 0 ++ drop n chunk_of.old }
{
    chunk_of[..n].fill(0);
}

// Makes the chunks, over the eligible modules in execution order. Answers how many there are.
fn make_chunks(
    settings: [Settings; 64],
    g: usize,
    answers: &[u32],
    n: usize,
    flags: &[u8],
    sizes: &[u64],
    shares: &[u32],
    tags: &[u64],
    bits: &[u64],
    ids: &Ids,
    records: &Records,
    order: &[u32],
    rank: &[u32],
    on_entry: u32,
    at: usize,
    scratch: &mut [u32],
    areas: &mut ChunkAreas,
) -> usize
    requires { Making (record {
      settings = settings;
      g = g;
      asked = record { answers = answers.now; tags = tags.now; shares = shares.now };
      n = n;
      tables = record { bytes = ids.now.bytes.now; offsets = ids.now.offsets.now; sizes = sizes.now; rank = rank.now };
      bits = bits.now;
      walking = record { flags = flags.now; first = records.now.first.now; dependency = records.now.dependency.now; next = records.now.next.now; order = order.now };
    })
        on_entry at (work areas.old) scratch.old }
    ensures emitted { ChunksMade (record {
      settings = settings;
      g = g;
      asked = record { answers = answers.now; tags = tags.now; shares = shares.now };
      n = n;
      tables = record { bytes = ids.now.bytes.now; offsets = ids.now.offsets.now; sizes = sizes.now; rank = rank.now };
      bits = bits.now;
      walking = record {
        flags = flags.now;
        first = records.now.first.now;
        dependency = records.now.dependency.now;
        next = records.now.next.now;
        order = order.now;
      };
    })
        on_entry at result (work areas.old)
        (work areas.new) }
    ensures same { SameAreas areas.old areas.new }
{
    let mut turns = [0u32; 64];
    into_priority_sorted_groups(settings, &mut turns[..g]);
    clear_numbers(areas.chunk_of, n);
    convert_groups_to_chunks(
        settings,
        &turns[..g],
        answers,
        n,
        flags,
        sizes,
        shares,
        tags,
        bits,
        ids,
        records,
        order,
        rank,
        ChunkIdx(on_entry),
        at,
        scratch,
        areas,
    )
}

// Writes the chains of the chunks that were made, and clears the scratch.
fn finish(
    order: &[u32],
    chunk_of: &[u32],
    on_entry: u32,
    n: usize,
    at: usize,
    made: usize,
    next_of: &mut [u32],
    first_of: &mut [u32],
    scratch: &mut [u32],
)
    requires { Finishing order.now chunk_of.now on_entry n at made (record { next_of = next_of.old; first_of = first_of.old }) }
    ensures { Finished order.now chunk_of.now on_entry n at made
        (record {
          next_of = next_of.old;
          first_of = first_of.old;
        }) (record {
          next_of = next_of.new;
          first_of = first_of.new;
        }) scratch.old scratch.new }
{
    let end = at + made;
    next_of[..n].fill(0);
    first_of[at..end].fill(0);
    link(order, chunk_of, on_entry, at, next_of, first_of);
    scratch.fill(0);
}

// Makes the chunks of a build and writes every area. The modules are told in execution order and by their ranks among the ids; who is assigned
// is told by the flag bytes. The first new chunk has the number `on_entry` and the record `at`. Answers how many chunks there are.
pub fn run(
    settings: [Settings; 64],
    g: usize,
    answers: &[u32],
    n: usize,
    flags: &[u8],
    sizes: &[u64],
    shares: &[u32],
    tags: &[u64],
    bits: &[u64],
    ids: &Ids,
    records: &Records,
    by_order: &[u32],
    rank: &[u32],
    on_entry: u32,
    at: usize,
    areas: &mut ChunkAreas,
    next_of: &mut [u32],
    first_of: &mut [u32],
    scratch: &mut [u32],
) -> usize
    requires { Running (record {
      settings = settings;
      g = g;
      asked = record { answers = answers.now; tags = tags.now; shares = shares.now };
      n = n;
      tables = record { bytes = ids.now.bytes.now; offsets = ids.now.offsets.now; sizes = sizes.now; rank = rank.now };
      bits = bits.now;
      walking = record { flags = flags.now; first = records.now.first.now; dependency = records.now.dependency.now; next = records.now.next.now; order = by_order.now };
    })
        on_entry at (record {
          modules = record { chunk_of = areas.old.chunk_of.now; next_of = next_of.old };
          records = record {
            first_of = first_of.old;
            group_of = areas.old.group_of.now;
            name_of = areas.old.name_of.now;
            size_of = areas.old.size_of.now;
            bits_of = areas.old.bits_of.now;
            mark_of = areas.old.mark_of.now;
          };
          scratch = scratch.old;
        }) }
    ensures written { RunWritten (record {
      settings = settings;
      g = g;
      asked = record { answers = answers.now; tags = tags.now; shares = shares.now };
      n = n;
      tables = record { bytes = ids.now.bytes.now; offsets = ids.now.offsets.now; sizes = sizes.now; rank = rank.now };
      bits = bits.now;
      walking = record {
        flags = flags.now;
        first = records.now.first.now;
        dependency = records.now.dependency.now;
        next = records.now.next.now;
        order = by_order.now;
      };
    })
        on_entry at result (record {
          modules = record { chunk_of = areas.old.chunk_of.now; next_of = next_of.old };
          records = record {
            first_of = first_of.old;
            group_of = areas.old.group_of.now;
            name_of = areas.old.name_of.now;
            size_of = areas.old.size_of.now;
            bits_of = areas.old.bits_of.now;
            mark_of = areas.old.mark_of.now;
          };
          scratch = scratch.old;
        })
        (record {
          modules = record { chunk_of = areas.new.chunk_of.now; next_of = next_of.new };
          records = record {
            first_of = first_of.new;
            group_of = areas.new.group_of.now;
            name_of = areas.new.name_of.now;
            size_of = areas.new.size_of.now;
            bits_of = areas.new.bits_of.now;
            mark_of = areas.new.mark_of.now;
          };
          scratch = scratch.new;
        }) }
    ensures same { SameAreas areas.old areas.new }
{
    let mut order = [0u32; 4096];
    let count = keep_eligible(flags, by_order, &mut order);
    let made = make_chunks(
        settings,
        g,
        answers,
        n,
        flags,
        sizes,
        shares,
        tags,
        bits,
        ids,
        records,
        &order[..count],
        rank,
        on_entry,
        at,
        scratch,
        areas,
    );
    let chunk_of = &mut *areas.chunk_of;
    finish(
        &order[..count],
        chunk_of,
        on_entry,
        n,
        at,
        made,
        next_of,
        first_of,
        scratch,
    );
    made
}

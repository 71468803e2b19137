// A run over dependency records that lie side by side: where many walks would jump about in scattered ones, these are laid anew first.
#![tactic(auto)]

ghost use Rattle.std.specs.Prelude.{◌≤◌};
ghost use Rattle.run.specs.Ran.{Running, RunWritten};
ghost use Rattle.emitting.specs.Emitted.{SameAreas};

use contiguous::{lay_chains, worth_laying};
use emitting::ChunkAreas;
use ids::parts::Ids;
use options::Settings;
use records::Records;
use run::run;

// The run of `run`, over records that are laid anew, if `room` words are enough for the chains of all modules.
fn run_laid(
    settings: [Settings; 64],
    g: usize,
    answers: &[u32],
    n: usize,
    flags: &[u8],
    sizes: &[u64],
    shares: &[u32],
    tags: &[u64],
    bits: &[u64],
    ids: &Ids,
    records: &Records,
    by_order: &[u32],
    rank: &[u32],
    on_entry: u32,
    at: usize,
    areas: &mut ChunkAreas,
    next_of: &mut [u32],
    first_of: &mut [u32],
    scratch: &mut [u32],
    room: usize,
) -> usize
    requires le_room { (1 ≤ room) × (room ≤ 65536) }
    requires running { Running (record {
      settings = settings;
      g = g;
      asked = record { answers = answers.now; tags = tags.now; shares = shares.now };
      n = n;
      tables = record { bytes = ids.now.bytes.now; offsets = ids.now.offsets.now; sizes = sizes.now; rank = rank.now };
      bits = bits.now;
      walking = record { flags = flags.now; first = records.now.first.now; dependency = records.now.dependency.now; next = records.now.next.now; order = by_order.now };
    })
        on_entry at (record {
          modules = record { chunk_of = areas.old.chunk_of.now; next_of = next_of.old };
          records = record {
            first_of = first_of.old;
            group_of = areas.old.group_of.now;
            name_of = areas.old.name_of.now;
            size_of = areas.old.size_of.now;
            bits_of = areas.old.bits_of.now;
            mark_of = areas.old.mark_of.now;
          };
          scratch = scratch.old;
        }) }
    ensures written { RunWritten (record {
      settings = settings;
      g = g;
      asked = record { answers = answers.now; tags = tags.now; shares = shares.now };
      n = n;
      tables = record { bytes = ids.now.bytes.now; offsets = ids.now.offsets.now; sizes = sizes.now; rank = rank.now };
      bits = bits.now;
      walking = record {
        flags = flags.now;
        first = records.now.first.now;
        dependency = records.now.dependency.now;
        next = records.now.next.now;
        order = by_order.now;
      };
    })
        on_entry at result (record {
          modules = record { chunk_of = areas.old.chunk_of.now; next_of = next_of.old };
          records = record {
            first_of = first_of.old;
            group_of = areas.old.group_of.now;
            name_of = areas.old.name_of.now;
            size_of = areas.old.size_of.now;
            bits_of = areas.old.bits_of.now;
            mark_of = areas.old.mark_of.now;
          };
          scratch = scratch.old;
        })
        (record {
          modules = record { chunk_of = areas.new.chunk_of.now; next_of = next_of.new };
          records = record {
            first_of = first_of.new;
            group_of = areas.new.group_of.now;
            name_of = areas.new.name_of.now;
            size_of = areas.new.size_of.now;
            bits_of = areas.new.bits_of.now;
            mark_of = areas.new.mark_of.now;
          };
          scratch = scratch.new;
        }) }
    ensures same { SameAreas areas.old areas.new }
{
    let mut to_first = [0u32; 4096];
    let mut to_dependency = [0u32; 65536];
    let mut to_next = [0u32; 65536];
    let count = lay_chains(
        records,
        &mut to_first,
        &mut to_dependency,
        &mut to_next,
        room,
    );
    if count == 0 {
        return run(
            settings, g, answers, n, flags, sizes, shares, tags, bits, ids, records, by_order,
            rank, on_entry, at, areas, next_of, first_of, scratch,
        );
    }
    let laid = Records {
        first: &to_first[..n],
        dependency: &to_dependency[..count],
        next: &to_next[..count],
    };
    run(
        settings, g, answers, n, flags, sizes, shares, tags, bits, ids, &laid, by_order, rank,
        on_entry, at, areas, next_of, first_of, scratch,
    )
}

// The run of `run`, over the records as they are or laid anew. No answer follows from which way is taken.
pub fn run_side_by_side(
    settings: [Settings; 64],
    g: usize,
    answers: &[u32],
    n: usize,
    flags: &[u8],
    sizes: &[u64],
    shares: &[u32],
    tags: &[u64],
    bits: &[u64],
    ids: &Ids,
    records: &Records,
    by_order: &[u32],
    rank: &[u32],
    on_entry: u32,
    at: usize,
    areas: &mut ChunkAreas,
    next_of: &mut [u32],
    first_of: &mut [u32],
    scratch: &mut [u32],
) -> usize
    requires { Running (record {
      settings = settings;
      g = g;
      asked = record { answers = answers.now; tags = tags.now; shares = shares.now };
      n = n;
      tables = record { bytes = ids.now.bytes.now; offsets = ids.now.offsets.now; sizes = sizes.now; rank = rank.now };
      bits = bits.now;
      walking = record { flags = flags.now; first = records.now.first.now; dependency = records.now.dependency.now; next = records.now.next.now; order = by_order.now };
    })
        on_entry at (record {
          modules = record { chunk_of = areas.old.chunk_of.now; next_of = next_of.old };
          records = record {
            first_of = first_of.old;
            group_of = areas.old.group_of.now;
            name_of = areas.old.name_of.now;
            size_of = areas.old.size_of.now;
            bits_of = areas.old.bits_of.now;
            mark_of = areas.old.mark_of.now;
          };
          scratch = scratch.old;
        }) }
    ensures written { RunWritten (record {
      settings = settings;
      g = g;
      asked = record { answers = answers.now; tags = tags.now; shares = shares.now };
      n = n;
      tables = record { bytes = ids.now.bytes.now; offsets = ids.now.offsets.now; sizes = sizes.now; rank = rank.now };
      bits = bits.now;
      walking = record {
        flags = flags.now;
        first = records.now.first.now;
        dependency = records.now.dependency.now;
        next = records.now.next.now;
        order = by_order.now;
      };
    })
        on_entry at result (record {
          modules = record { chunk_of = areas.old.chunk_of.now; next_of = next_of.old };
          records = record {
            first_of = first_of.old;
            group_of = areas.old.group_of.now;
            name_of = areas.old.name_of.now;
            size_of = areas.old.size_of.now;
            bits_of = areas.old.bits_of.now;
            mark_of = areas.old.mark_of.now;
          };
          scratch = scratch.old;
        })
        (record {
          modules = record { chunk_of = areas.new.chunk_of.now; next_of = next_of.new };
          records = record {
            first_of = first_of.new;
            group_of = areas.new.group_of.now;
            name_of = areas.new.name_of.now;
            size_of = areas.new.size_of.now;
            bits_of = areas.new.bits_of.now;
            mark_of = areas.new.mark_of.now;
          };
          scratch = scratch.new;
        }) }
    ensures same { SameAreas areas.old areas.new }
{
    if !worth_laying(g, records.next) {
        return run(
            settings, g, answers, n, flags, sizes, shares, tags, bits, ids, records, by_order,
            rank, on_entry, at, areas, next_of, first_of, scratch,
        );
    }
    // There are two calls, so that the compiler gives the new tables a frame of their own, which other builds do not pay for. Where there are many
    // groups it is worth it also to lay records that chains share once for each of them.
    if g < 32 {
        return run_laid(
            settings,
            g,
            answers,
            n,
            flags,
            sizes,
            shares,
            tags,
            bits,
            ids,
            records,
            by_order,
            rank,
            on_entry,
            at,
            areas,
            next_of,
            first_of,
            scratch,
            records.next.len(),
        );
    }
    run_laid(
        settings, g, answers, n, flags, sizes, shares, tags, bits, ids, records, by_order, rank,
        on_entry, at, areas, next_of, first_of, scratch, 65536,
    )
}

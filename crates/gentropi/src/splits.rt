// Chunks for a host: the options given to the whole build are a byte beside numbers, as a group's are.
ghost use Rattle.options.specs.Tables.{options_by};
ghost use Rattle.gentropi.specs.After.{ChunksExport};

use emitting::ChunkAreas;
use ids::parts::Ids;
use options::tables::Groups;
use records::Records;

#[unsafe(no_mangle)]
pub extern "C" fn gentropi_chunks(
    n: usize,
    g: usize,
    e: usize,
    k: usize,
    d: usize,
    flags: &[u8],
    sizes: &[u64],
    orders: &[u32],
    shares: &[u32],
    tags: &[u64],
    bits: &[u64],
    bytes: &[u8],
    offsets: &[u32],
    first: &[u32],
    dependency: &[u32],
    next: &[u32],
    given: u8,
    min_size: f64,
    max_size: f64,
    min_module_size: f64,
    max_module_size: f64,
    min_share_count: u32,
    group_given: &[u8],
    group_min_size: &[f64],
    group_max_size: &[f64],
    group_min_module_size: &[f64],
    group_max_module_size: &[f64],
    group_min_share_count: &[u32],
    group_tags: &[u64],
    group_priority: &[u32],
    group_threshold: &[f64],
    answers: &[u32],
    on_entry: usize,
    chunk_of: &mut [u32],
    next_of: &mut [u32],
    first_of: &mut [u32],
    group_of: &mut [u32],
    name_of: &mut [u32],
    size_of: &mut [f64],
    bits_of: &mut [u64],
    mark_of: &mut [u8],
    scratch: &mut [u32],
    count: &mut usize,
) -> u32
    ensures { ChunksExport (record {
      shared = record {
        n = n;
        e = e;
        k = k;
        d = d;
        sizes = sizes.now;
        orders = orders.now;
        shares = shares.now;
        tags = tags.now;
        bits = bits.now;
        bytes = bytes.now;
        offsets = offsets.now;
        first = first.now;
        dependency = dependency.now;
        next = next.now;
        options = options_by given min_size max_size min_module_size max_module_size min_share_count;
      };
      variant = record {
        flags = flags.now;
        g = g;
        groups = record {
          given = group_given.now;
          min_size = group_min_size.now;
          max_size = group_max_size.now;
          min_module_size = group_min_module_size.now;
          max_module_size = group_max_module_size.now;
          min_share_count = group_min_share_count.now;
          tags = group_tags.now;
          priority = group_priority.now;
          threshold = group_threshold.now;
        };
        answers = answers.now;
      };
      on_entry = on_entry;
    }) result count.old count.new (record {
      modules = record { chunk_of = chunk_of.old; next_of = next_of.old };
      records = record {
        first_of = first_of.old;
        group_of = group_of.old;
        name_of = name_of.old;
        size_of = size_of.old;
        bits_of = bits_of.old;
        mark_of = mark_of.old;
      };
      scratch = scratch.old;
    }) (record {
      modules = record { chunk_of = chunk_of.new; next_of = next_of.new };
      records = record {
        first_of = first_of.new;
        group_of = group_of.new;
        name_of = name_of.new;
        size_of = size_of.new;
        bits_of = bits_of.new;
        mark_of = mark_of.new;
      };
      scratch = scratch.new;
    }) }
{
    let options = options::tables::options_by(
        given as u64,
        min_size,
        max_size,
        min_module_size,
        max_module_size,
        min_share_count,
    );
    let ids = Ids { bytes, offsets };
    let records = Records {
        first,
        dependency,
        next,
    };
    let groups = Groups {
        given: group_given,
        min_size: group_min_size,
        max_size: group_max_size,
        min_module_size: group_min_module_size,
        max_module_size: group_max_module_size,
        min_share_count: group_min_share_count,
        tags: group_tags,
        priority: group_priority,
        threshold: group_threshold,
    };
    let mut areas = ChunkAreas {
        chunk_of,
        group_of,
        name_of,
        size_of,
        bits_of,
        mark_of,
    };
    let answer = chunks::split(
        n, g, e, k, d, flags, sizes, orders, shares, tags, bits, &ids, &records, options, &groups,
        answers, on_entry, &mut areas, next_of, first_of, scratch,
    );
    match answer {
        Err(refusal) => refusal.number(),
        Ok(made) => {
            *count = made;
            0
        }
    }
}

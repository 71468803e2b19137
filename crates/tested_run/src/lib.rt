// The run of a build that has passed the tests, under the settings of its groups.
#![tactic(auto)]

ghost use Rattle.tested_run.specs.RunInput.{Runnable, TestedRan};
ghost use Rattle.options.specs.Tables.{tables_of};
ghost use Rattle.emitting.specs.Emitted.{SameAreas};

use emitting::ChunkAreas;
use ids::parts::Ids;
use options::Options;
use options::tables::Groups;
use records::Records;
use run::run;
use turns::settings::all_settings;

// Runs a build that has passed the tests. The first new chunk has the record `at`. Answers how many chunks there are.
pub fn run_tested(
    n: usize,
    g: usize,
    flags: &[u8],
    sizes: &[u64],
    shares: &[u32],
    tags: &[u64],
    bits: &[u64],
    ids: &Ids,
    records: &Records,
    options: Options,
    groups: &Groups,
    answers: &[u32],
    by_order: &[u32],
    rank: &[u32],
    on_entry: usize,
    at: usize,
    areas: &mut ChunkAreas,
    next_of: &mut [u32],
    first_of: &mut [u32],
    scratch: &mut [u32],
) -> usize
    requires { Runnable (record {
      n = n;
      g = g;
      flags = flags.now;
      sizes = sizes.now;
      shares = shares.now;
      tags = tags.now;
      bits = bits.now;
      bytes = ids.now.bytes.now;
      offsets = ids.now.offsets.now;
      first = records.now.first.now;
      dependency = records.now.dependency.now;
      next = records.now.next.now;
      options = options;
      groups = tables_of groups.now;
      answers = answers.now;
      by_order = by_order.now;
      rank = rank.now;
      on_entry = on_entry;
    }) at (record {
      modules = record { chunk_of = areas.old.chunk_of.now; next_of = next_of.old };
      records = record {
        first_of = first_of.old;
        group_of = areas.old.group_of.now;
        name_of = areas.old.name_of.now;
        size_of = areas.old.size_of.now;
        bits_of = areas.old.bits_of.now;
        mark_of = areas.old.mark_of.now;
      };
      scratch = scratch.old;
    }) }
    ensures written { TestedRan (record {
      n = n;
      g = g;
      flags = flags.now;
      sizes = sizes.now;
      shares = shares.now;
      tags = tags.now;
      bits = bits.now;
      bytes = ids.now.bytes.now;
      offsets = ids.now.offsets.now;
      first = records.now.first.now;
      dependency = records.now.dependency.now;
      next = records.now.next.now;
      options = options;
      groups = tables_of groups.now;
      answers = answers.now;
      by_order = by_order.now;
      rank = rank.now;
      on_entry = on_entry;
    }) at result (record {
      modules = record { chunk_of = areas.old.chunk_of.now; next_of = next_of.old };
      records = record {
        first_of = first_of.old;
        group_of = areas.old.group_of.now;
        name_of = areas.old.name_of.now;
        size_of = areas.old.size_of.now;
        bits_of = areas.old.bits_of.now;
        mark_of = areas.old.mark_of.now;
      };
      scratch = scratch.old;
    }) (record {
      modules = record { chunk_of = areas.new.chunk_of.now; next_of = next_of.new };
      records = record {
        first_of = first_of.new;
        group_of = areas.new.group_of.now;
        name_of = areas.new.name_of.now;
        size_of = areas.new.size_of.now;
        bits_of = areas.new.bits_of.now;
        mark_of = areas.new.mark_of.now;
      };
      scratch = scratch.new;
    }) }
    ensures same { SameAreas areas.old areas.new }
{
    let settings = all_settings(options, groups, g);
    run(
        settings,
        g,
        answers,
        n,
        flags,
        sizes,
        shares,
        tags,
        bits,
        ids,
        records,
        by_order,
        rank,
        on_entry as u32,
        at,
        areas,
        next_of,
        first_of,
        scratch,
    )
}

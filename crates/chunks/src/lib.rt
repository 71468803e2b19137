// The call Chunks: everything handed in is tested, and a build that is not turned away is run.
#![tactic(auto)]

ghost use Rattle.grouping.specs.Call.{ChunksCall};
ghost use Rattle.grouping.specs.Conditions.{scratch_need};
ghost use Rattle.refusal.specs.Answers.{outcome_of};
ghost use Rattle.options.specs.Tables.{tables_of};
ghost use Rattle.emitting.specs.Emitted.{SameAreas};

use conditions::AreaLengths;
use emitting::ChunkAreas;
use ids::parts::Ids;
use options::Options;
use options::tables::Groups;
use records::Records;
use refusal::Refusal;
use tested_run::run_tested;
use testing::input::test_input;
use testing::state::test_state;
use turns::settings::all_settings;

// The call: refuses, or answers how many new chunks there are. A refusal touches no lent area.
pub fn split(
    n: usize,
    g: usize,
    e: usize,
    k: usize,
    d: usize,
    flags: &[u8],
    sizes: &[u64],
    orders: &[u32],
    shares: &[u32],
    tags: &[u64],
    bits: &[u64],
    ids: &Ids,
    records: &Records,
    options: Options,
    groups: &Groups,
    answers: &[u32],
    on_entry: usize,
    areas: &mut ChunkAreas,
    next_of: &mut [u32],
    first_of: &mut [u32],
    scratch: &mut [u32],
) -> Result<usize, Refusal>
    ensures answered { ChunksCall scratch_need (record {
      shared = record {
        n = n;
        e = e;
        k = k;
        d = d;
        sizes = sizes.now;
        orders = orders.now;
        shares = shares.now;
        tags = tags.now;
        bits = bits.now;
        bytes = ids.now.bytes.now;
        offsets = ids.now.offsets.now;
        first = records.now.first.now;
        dependency = records.now.dependency.now;
        next = records.now.next.now;
        options = options;
      };
      variant = record {
        flags = flags.now;
        g = g;
        groups = tables_of groups.now;
        answers = answers.now;
      };
      on_entry = on_entry;
    }) (outcome_of result) (record {
      modules = record { chunk_of = areas.old.chunk_of.now; next_of = next_of.old };
      records = record {
        first_of = first_of.old;
        group_of = areas.old.group_of.now;
        name_of = areas.old.name_of.now;
        size_of = areas.old.size_of.now;
        bits_of = areas.old.bits_of.now;
        mark_of = areas.old.mark_of.now;
      };
      scratch = scratch.old;
    }) (record {
      modules = record { chunk_of = areas.new.chunk_of.now; next_of = next_of.new };
      records = record {
        first_of = first_of.new;
        group_of = areas.new.group_of.now;
        name_of = areas.new.name_of.now;
        size_of = areas.new.size_of.now;
        bits_of = areas.new.bits_of.now;
        mark_of = areas.new.mark_of.now;
      };
      scratch = scratch.new;
    }) }
    ensures same { SameAreas areas.old areas.new }
{
    let mut by_order = [0u32; 4096];
    let mut rank = [0u32; 4096];
    let count = test_input(
        n,
        g,
        e,
        k,
        d,
        flags,
        sizes,
        orders,
        shares,
        tags,
        bits,
        ids,
        records,
        options,
        groups,
        answers,
        &mut by_order,
        &mut rank,
    )?;
    let lengths = AreaLengths {
        chunk_of: areas.chunk_of.len(),
        next_of: next_of.len(),
        first_of: first_of.len(),
        group_of: areas.group_of.len(),
        name_of: areas.name_of.len(),
        size_of: areas.size_of.len(),
        bits_of: areas.bits_of.len(),
        mark_of: areas.mark_of.len(),
    };
    test_state(answers, n, g, k, on_entry, lengths, scratch.len())?;
    let made = run_tested(
        n,
        g,
        flags,
        sizes,
        shares,
        tags,
        bits,
        ids,
        records,
        options,
        groups,
        answers,
        &by_order[..count],
        &rank[..n],
        on_entry,
        0,
        areas,
        next_of,
        first_of,
        scratch,
    );
    Ok(made)
}

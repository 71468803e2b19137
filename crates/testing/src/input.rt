// 1 to 10: all conditions of the input.
ghost use Rattle.std.specs.Prelude.{◌≤◌, length};
ghost use Rattle.refusal.specs.Counts.{module_limit};
ghost use Rattle.grouping.specs.Given.{Given};
ghost use Rattle.testing.specs.Tested.{HandsAll, InputTested};
ghost use Rattle.options.specs.Tables.{tables_of};

use crate::lengths::{group_lengths, module_lengths, record_lengths};
use crate::ordering::test_order;
use conditions::ladder::shape_number;
use ids::parts::Ids;
use options::Options;
use options::tables::Groups;
use records::Records;
use refusal::Refusal;

// Refuses by the first that applies, or answers how many modules are normal and included. The two tables have room for any build; what a
// refusal leaves in them is free.
pub fn test_input(
    n: usize,
    g: usize,
    e: usize,
    k: usize,
    d: usize,
    flags: &[u8],
    sizes: &[u64],
    orders: &[u32],
    shares: &[u32],
    tags: &[u64],
    bits: &[u64],
    ids: &Ids,
    records: &Records,
    options: Options,
    groups: &Groups,
    answers: &[u32],
    by_order: &mut [u32],
    rank: &mut [u32],
) -> Result<usize, Refusal>
    requires { (module_limit ≤ length by_order.old) × (module_limit ≤ length rank.old) }
    ensures { (b : Given) → HandsAll b (record {
      n = n;
      e = e;
      k = k;
      d = d;
      sizes = sizes.now;
      orders = orders.now;
      shares = shares.now;
      tags = tags.now;
      bits = bits.now;
      bytes = ids.now.bytes.now;
      offsets = ids.now.offsets.now;
      first = records.now.first.now;
      dependency = records.now.dependency.now;
      next = records.now.next.now;
      options = options;
    }) (record {
      flags = flags.now;
      g = g;
      groups = tables_of groups.now;
      answers = answers.now;
    })
        → InputTested b result by_order.old by_order.new rank.old rank.new }
{
    let by_module = module_lengths(flags, sizes, orders, shares, tags, bits);
    let by_record = record_lengths(ids.offsets, records);
    let by_group = group_lengths(groups);
    shape_number(
        n,
        g,
        e,
        k,
        d,
        by_module,
        by_record,
        by_group,
        answers.len(),
        ids.bytes.len(),
        ids.offsets,
    )?;
    test_order(
        n, g, e, k, d, flags, sizes, orders, bits, ids, records, options, groups, answers,
        by_order, rank,
    )
}

// 4 to 10: both orders of the modules, and then what else the tables hold.
ghost use Rattle.grouping.specs.Given.{Given};
ghost use Rattle.places.specs.Ordered.{Handed, Hands};
ghost use Rattle.testing.specs.Content.{ContentReady, HandsContent};
ghost use Rattle.testing.specs.Tested.{OrderTested};
ghost use Rattle.options.specs.Tables.{tables_of};

use crate::content::content_number;
use ids::parts::Ids;
use options::Options;
use options::tables::Groups;
use places::ordered::put_in_order;
use records::Records;
use refusal::Refusal;

// Refuses, or leaves the modules in execution order and their ranks by id, and answers how many there are.
#[tactic(auto, using(crate::proofs::OrderLadder::order_outcome))]
pub fn test_order(
    n: usize,
    g: usize,
    e: usize,
    k: usize,
    d: usize,
    flags: &[u8],
    sizes: &[u64],
    orders: &[u32],
    bits: &[u64],
    ids: &Ids,
    records: &Records,
    options: Options,
    groups: &Groups,
    answers: &[u32],
    by_order: &mut [u32],
    rank: &mut [u32],
) -> Result<usize, Refusal>
    requires { Handed flags.now orders.now ids.now.bytes.now ids.now.offsets.now by_order.old rank.old
        × ContentReady n g k d flags.now sizes.now bits.now records.now.first.now records.now.dependency.now records.now.next.now (tables_of groups.now) }
    ensures { (b : Given) → Hands b flags.now orders.now ids.now.bytes.now ids.now.offsets.now
        → HandsContent b n g e k d flags.now sizes.now bits.now
        records.now.first.now records.now.dependency.now records.now.next.now answers.now options (tables_of groups.now)
        → OrderTested b result by_order.old by_order.new rank.old rank.new }
{
    let count = put_in_order(flags, orders, ids, by_order, rank)?;
    content_number(
        n, g, e, k, d, flags, sizes, bits, records, options, groups, answers,
    )?;
    Ok(count)
}

// Both orders at once, for a call of Chunks.
ghost use Rattle.grouping.specs.Given.{Given};
ghost use Rattle.places.specs.Ordered.{HandedIds, HandedOrders, Handed, RankedListed, OrderedListed, Hands, InOrder};

use exec_order::by_order::put_by_order;
use exec_order::listed::list_modules;
use ids::parts::Ids;
use ranks::by_id::rank_by_id;
use refusal::Refusal;

// Ranks the normal included modules among their ids, unless two of them share one. What the list then holds is free.
fn rank_listed(flags: &[u8], ids: &Ids, list: &mut [u32], rank: &mut [u32]) -> bool
    requires { HandedIds flags.now ids.now.bytes.now ids.now.offsets.now list.old rank.old }
    ensures { RankedListed flags.now ids.now.bytes.now ids.now.offsets.now result
        list.old list.new rank.old rank.new }
{
    let count = list_modules(flags, list);
    rank_by_id(ids, &mut list[..count], rank)
}

// Writes the normal included modules in execution order and answers how many there are, unless two of them share one.
fn order_listed(flags: &[u8], orders: &[u32], list: &mut [u32]) -> Result<usize, Refusal>
    requires { HandedOrders flags.now orders.now list.old }
    ensures { OrderedListed flags.now orders.now result list.old list.new }
{
    let count = list_modules(flags, list);
    if put_by_order(orders, &mut list[..count]) {
        return Err(Refusal::SameOrder);
    }
    Ok(count)
}

// Writes the normal included modules in execution order, and for each its rank among their ids, and answers how many there are, unless two
// share an id or an execution order. The list is made a second time, since ranking leaves it in id order.
pub fn put_in_order(
    flags: &[u8],
    orders: &[u32],
    ids: &Ids,
    by_order: &mut [u32],
    rank: &mut [u32],
) -> Result<usize, Refusal>
    requires { Handed flags.now orders.now ids.now.bytes.now ids.now.offsets.now by_order.old rank.old }
    ensures { (b : Given) → Hands b flags.now orders.now ids.now.bytes.now ids.now.offsets.now
        → InOrder b result by_order.old by_order.new rank.old rank.new }
{
    if rank_listed(flags, ids, by_order, rank) {
        return Err(Refusal::SameId);
    }
    order_listed(flags, orders, by_order)
}

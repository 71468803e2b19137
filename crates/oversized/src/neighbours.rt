// What the cuts of modules in an order read: how alike each is to the one before it, and the sizes that lie before each.
ghost use Rattle.std.specs.Prelude.{◌≡◌, length};
ghost use Rattle.cut.specs.Order.{Sized, Named};
ghost use Rattle.oversized.specs.Neighbours.{Compared, Summed};

use cut::alike::similarity_between;
use cut::sizes::size_at;
use ids::parts::Ids;
use index::ModuleIdx;

// Compares each module but the first with the one before it.
pub fn fill_similar(ids: &Ids, order: &[u32], similar: &mut [u32])
    requires { Named ids.now.bytes.now ids.now.offsets.now order.now × (length similar.old ≡ length order.now) }
    ensures { Compared ids.now.bytes.now ids.now.offsets.now order.now similar.new }
{
    for i in 1..order.len() {
        let last = i - 1;
        let before = order[last];
        let after = order[i];
        similar[i] = similarity_between(ids, ModuleIdx(before), ModuleIdx(after));
    }
}

// Writes the sizes before each module, added one after the other.
pub fn fill_sums(sizes: &[u64], order: &[u32], sums: &mut [f64])
    requires { Sized sizes.now order.now × (length sums.old ≡ length order.now) }
    ensures { Summed sizes.now order.now sums.new }
{
    let mut sum = 0.0;
    for i in 0..order.len() {
        sums[i] = sum;
        sum += size_at(sizes, order, i);
    }
}

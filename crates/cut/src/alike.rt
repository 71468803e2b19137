// How alike the ids of two modules are.
ghost use Rattle.std.specs.Prelude.{◌≡◌};
ghost use Rattle.cut.specs.Order.{alike, NamedPair};

use ids::parts::Ids;
use index::ModuleIdx;
use similarity::similarity_within;

// The similarity of the ids of two modules.
pub fn similarity_between(ids: &Ids, before: ModuleIdx, after: ModuleIdx) -> u32
    requires { NamedPair ids.now.bytes.now ids.now.offsets.now before.0 after.0 }
    ensures { result ≡ alike ids.now.bytes.now ids.now.offsets.now before.0 after.0 }
{
    let lhs = ids.id_at(before);
    let rhs = ids.id_at(after);
    similarity_within(lhs, rhs)
}

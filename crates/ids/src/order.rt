// Byte order of ids.
ghost use Rattle.std.specs.Prelude.{◌≡◌};
ghost use Rattle.ids.specs.Order.{before};

// Whether lhs stands before rhs in byte order.
#[tactic(auto, using(crate::proofs::ByteOrder::compared))]
pub fn id_before(lhs: &[u8], rhs: &[u8]) -> bool
    ensures { result ≡ before lhs.now rhs.now }
{
    lhs < rhs
}

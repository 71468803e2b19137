// Whether numbers are in ascending order, 16 pairs of neighbours at a time.
ghost use Rattle.std.specs.Prelude.{◌≡◌};
ghost use Rattle.std.specs.Ordering.{partial_lt};
ghost use Rattle.orders.specs.Ascending.{falls_by, ascends_by};

// Whether an element is followed by a lower one. All are looked at, also behind such an element: so several are compared at once.
fn falls<T: PartialOrd>(a: &[T]) -> bool
    ensures { result ≡ falls_by (partial_lt T.partial_cmp) a.now }
{
    let mut falls = false;
    for pair in a.windows(2) {
        falls |= pair[1] < pair[0];
    }
    falls
}

// Whether each element is at least the one before it. Leaves behind the first 16 of which one is followed by a lower one.
pub fn ascends<T: PartialOrd>(a: &[T]) -> bool
    ensures { result ≡ ascends_by (partial_lt T.partial_cmp) a.now }
{
    // A loop by hand: each 17 share one number with the next 17, and the rest counts too, which no iterator gives in one.
    let mut rest = a;
    while 17 <= rest.len() {
        if falls(&rest[..17]) {
            return false;
        }
        rest = &rest[16..];
    }
    !falls(rest)
}

// Sizes of modules in an order of their own, as doubles.
ghost use Rattle.std.specs.Prelude.{◌≡◌, ◌<◌, length, get_or};
ghost use Rattle.whole.specs.Double.{to_f64, sum_f64};
ghost use Rattle.cut.specs.Order.{sizes_in, Sized};

// The size of the module at place i of the order.
pub fn size_at(sizes: &[u64], order: &[u32], i: usize) -> f64
    requires sized { Sized sizes.now order.now }
    requires i_in_bounds { i < length order.now }
    ensures { result ≡ to_f64 (get_or (sizes_in sizes.now order.now) i 0) }
{
    sizes[order[i] as usize] as f64
}

// The sizes of all the modules, added one after the other.
pub fn total_size(sizes: &[u64], order: &[u32]) -> f64
    requires { Sized sizes.now order.now }
    ensures { result ≡ sum_f64 (sizes_in sizes.now order.now) }
{
    let mut total = 0.0;
    for &module in order {
        total += sizes[module as usize] as f64;
    }
    total
}

// The table of the subgroups' sizes.
ghost use Rattle.std.specs.Prelude.{◌≡◌, ◌≤◌, ◌<◌, ◌^◌, length, get_or};
ghost use Rattle.whole.specs.Double.{to_f64};

// The size of row i as a double. It is at most 2^53, so that it is an i64 too, which becomes a double in one step.
pub fn size_at(sizes: &[u64], i: usize) -> f64
    requires i_in_bounds { i < length sizes.now }
    requires i_bound { get_or sizes.now i 0 ≤ 2 ^ 53 }
    ensures { result ≡ to_f64 (get_or sizes.now i 0) }
{
    sizes[i] as i64 as f64
}

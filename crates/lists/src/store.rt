// One byte stored at each place of a list.
ghost use Rattle.std.specs.Prelude.{◌≡◌, ℕ, ◌<◌, length, get_or};
ghost use Rattle.lists.specs.Stored.{stored};

pub fn store_bytes(value: u8, list: &[u32], area: &mut [u8])
    requires { (i : ℕ) → i < length list.now → get_or list.now i 0 < length area.old }
    ensures { area.new ≡ stored value list.now area.old }
{
    for place in list {
        area[*place as usize] = value;
    }
}

// Areas filled with numbers in ascending order.
ghost use Rattle.std.specs.Prelude.{◌≡◌, ◌≤◌, length};
ghost use Rattle.lists.specs.Range.{range};

// Writes 0, 1, 2 and so on into the area: the order in which things were given.
pub fn fill_range(area: &mut [u32])
    requires { length area.old ≤ 65536 }
    ensures { area.new ≡ range 0 (length area.old) }
{
    for (i, place) in area.iter_mut().enumerate() {
        *place = i as u32;
    }
}

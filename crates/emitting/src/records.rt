// Chunk records: one area for each field.
ghost use Rattle.std.specs.Prelude.{◌≡◌, ◌<◌, length, set};

// Writes the group, the name, the size and the mark of record `at`.
pub fn store_fields(
    group_of: &mut [u32],
    name_of: &mut [u32],
    size_of: &mut [f64],
    mark_of: &mut [u8],
    at: usize,
    group: u32,
    name: u32,
    size: f64,
    mark: u8,
)
    requires { (at < length group_of.old) × (at < length name_of.old) × (at < length size_of.old) × (at < length mark_of.old) }
    ensures group_of_after { group_of.new ≡ set group_of.old at group }
    ensures name_of_after { name_of.new ≡ set name_of.old at name }
    ensures size_of_after { size_of.new ≡ set size_of.old at size }
    ensures mark_of_after { mark_of.new ≡ set mark_of.old at mark }
{
    group_of[at] = group;
    name_of[at] = name;
    size_of[at] = size;
    mark_of[at] = mark;
}

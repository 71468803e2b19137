// Bytes put behind others in an area, as far as there is room.
ghost use Rattle.std.specs.Prelude.{◌≤◌, length};
ghost use Rattle.chunk_names.specs.Append.{Appended};

use copying::copy;

// Puts a part behind the first `at` bytes of the area and answers where what the area holds then ends.
pub fn append(area: &mut [u8], at: usize, part: &[u8]) -> usize
    requires { at ≤ length area.old }
    ensures { Appended area.old at part.now result area.new }
{
    let count = (area.len() - at).min(part.len());
    let end = at + count;
    copy(&part[..count], &mut area[at..end]);
    end
}

// The start of a character.
ghost use Rattle.std.specs.Prelude.{◌≡◌, ◌<◌, length};
ghost use Rattle.utf8.specs.Start.{start_back};

// Byte `at`, or further back to the start of a character.
pub fn start_back(bytes: &[u8], at: usize) -> usize
    requires { at < length bytes.now }
    ensures { result ≡ start_back bytes.now at }
{
    for i in (1..at + 1).rev() {
        if bytes[i] < 128 || 191 < bytes[i] {
            return i;
        }
    }
    0
}

// Refusals 14 and 15 over a table of names.
ghost use Rattle.std.specs.Prelude.{◌≡◌};
ghost use Rattle.name_tables.specs.Names.{names_of, NameTable};
ghost use Rattle.name_tables.specs.Conditions.{any_not_utf8, unordered};

// A name isn't UTF-8.
pub fn any_not_utf8(count: usize, bytes: &[u8], offsets: &[u32]) -> bool
    requires { NameTable count bytes.now offsets.now }
    ensures { result ≡ any_not_utf8 (names_of count bytes.now offsets.now) }
{
    for k in 0..count {
        if !utf8::text::is_utf8(crate::name_at(bytes, offsets, k)) {
            return true;
        }
    }
    false
}

// A name doesn't stand before the next one.
pub fn unordered_names(count: usize, bytes: &[u8], offsets: &[u32]) -> bool
    requires { NameTable count bytes.now offsets.now }
    ensures { result ≡ unordered (names_of count bytes.now offsets.now) }
{
    for k in 1..count {
        let name = crate::name_at(bytes, offsets, k - 1);
        if !ids::order::id_before(name, crate::name_at(bytes, offsets, k)) {
            return true;
        }
    }
    false
}

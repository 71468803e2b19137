// Tables of names: a name is a part of the caller's bytes and is handed back as one.
#![tactic(auto)]

pub mod conditions;

ghost use Rattle.std.specs.Prelude.{◌≡◌};
ghost use Rattle.ids.specs.Parts.{InTable};
ghost use Rattle.name_tables.specs.Names.{name_at};

pub fn name_at<'a>(bytes: &'a [u8], offsets: &[u32], k: usize) -> &'a [u8]
    requires { InTable bytes.now offsets.now k }
    ensures { result.now ≡ name_at bytes.now offsets.now k }
{
    let start = offsets[k] as usize;
    let end = offsets[k + 1] as usize;
    &bytes[start..end]
}

// Refusals 3 and 7: stable ids and dependency records, which have their tests in crates of their own.
ghost use Rattle.std.specs.Prelude.{◌≡◌, length};
ghost use Rattle.records.specs.Bad.{RecordTables};
ghost use Rattle.grouping.specs.Given.{Given};
ghost use Rattle.grouping.specs.Conditions.{bad_id, bad_dependency};
ghost use Rattle.conditions.specs.HandsIn.{HandsRecords};

use records::Records;

// Refusal 3, with the length of the byte slice that the offsets cut.
pub fn bad_id(end: usize, offsets: &[u32]) -> bool
    ensures { (b : Given) → length b.shared.bytes ≡ end → b.shared.offsets ≡ offsets.now → result ≡ bad_id b }
{
    ids::offsets::bad_offsets(ids::offsets::ID_LIMIT, end, offsets)
}

// Refusal 7.
pub fn bad_dependency(records: &Records, n: usize, d: usize) -> bool
    requires { RecordTables records.now.first.now records.now.dependency.now records.now.next.now n d }
    ensures { (b : Given) → HandsRecords b records.now.first.now records.now.dependency.now records.now.next.now n d → result ≡ bad_dependency b }
{
    records::bad_records(records, n, d)
}

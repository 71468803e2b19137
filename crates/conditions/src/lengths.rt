// Refusal 2: a table's length is not the one that its counts imply. Refusal 1 was tested before, so no product wraps.
ghost use Rattle.std.specs.Prelude.{◌≡◌, ◌≤◌, ◌*◌, length};
ghost use Rattle.refusal.specs.Counts.{module_limit, group_limit, record_limit, bad_length};
ghost use Rattle.options.specs.Tables.{GroupTables};
ghost use Rattle.grouping.specs.Given.{Given};
ghost use Rattle.grouping.specs.Conditions.{bad_module_table, bad_record_table, bad_group_table, bad_table};
ghost use Rattle.conditions.specs.HandsIn.{module_lengths, record_lengths, group_lengths, CountsWithin, HandsLengths};

use crate::{GroupLengths, ModuleLengths, RecordLengths};

fn bad_module_table(n: usize, lengths: ModuleLengths) -> bool
    requires { n ≤ module_limit }
    ensures { (b : Given) → b.shared.n ≡ n → module_lengths b ≡ lengths → result ≡ bad_module_table b }
{
    (lengths.flags != n)
        | (lengths.sizes != n)
        | (lengths.orders != n)
        | (lengths.shares != n)
        | (lengths.tags != n)
        | (lengths.bits != 4 * n)
}

fn bad_record_table(n: usize, d: usize, lengths: RecordLengths) -> bool
    requires { (n ≤ module_limit) × (d ≤ record_limit) }
    ensures { (b : Given) → b.shared.n ≡ n → b.shared.d ≡ d → record_lengths b ≡ lengths → result ≡ bad_record_table b }
{
    (lengths.offsets != n + 1)
        | (lengths.first != n)
        | (lengths.dependency != d + 1)
        | (lengths.next != d + 1)
}

fn bad_group_table(g: usize, lengths: GroupLengths) -> bool
    ensures { (t : GroupTables) → group_lengths t ≡ lengths → result ≡ bad_group_table t g }
{
    (lengths.given != g)
        | (lengths.min_size != g)
        | (lengths.max_size != g)
        | (lengths.min_module_size != g)
        | (lengths.max_module_size != g)
        | (lengths.min_share_count != g)
        | (lengths.tags != g)
        | (lengths.priority != g)
        | (lengths.threshold != g)
}

fn bad_answer_table(n: usize, g: usize, answers: usize) -> bool
    requires { (n ≤ module_limit) × (g ≤ group_limit) }
    ensures { (b : Given) → b.shared.n ≡ n → b.variant.g ≡ g → length b.variant.answers ≡ answers
        → result ≡ bad_length b.variant.answers (b.variant.g * b.shared.n) }
{
    answers != g * n
}

pub fn bad_table(
    n: usize,
    g: usize,
    d: usize,
    modules: ModuleLengths,
    records: RecordLengths,
    groups: GroupLengths,
    answers: usize,
) -> bool
    requires { CountsWithin n g d }
    ensures { (b : Given) → HandsLengths b n g d modules records groups answers → result ≡ bad_table b }
{
    bad_module_table(n, modules)
        | bad_record_table(n, d, records)
        | bad_group_table(g, groups)
        | bad_answer_table(n, g, answers)
}

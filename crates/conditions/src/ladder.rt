// The conditions in their order, in parts: each refuses by the first that applies.
ghost use Rattle.std.specs.Prelude.{◌≡◌, ◌≤◌, ◌*◌, length};
ghost use Rattle.refusal.specs.Counts.{module_limit, name_limit};
ghost use Rattle.records.specs.Bad.{RecordTables};
ghost use Rattle.grouping.specs.Given.{Given, Areas};
ghost use Rattle.grouping.specs.Conditions.{scratch_need, state_tests};
ghost use Rattle.sums.specs.HandsIn.{pair_limit, HandsSizes, HandsAnswers};
ghost use Rattle.conditions.specs.HandsIn.{HandsRecords, HandsBits};
ghost use Rattle.conditions.specs.Ladder.{shape_tests, tree_tests, value_tests, HandsShape, HandsAreas};
ghost use Rattle.refusal.specs.Answers.{number_or_zero};
ghost use Rattle.refusal.specs.Outcome.{first_number};

use crate::{AreaLengths, GroupLengths, ModuleLengths, RecordLengths};
use records::Records;
use refusal::Refusal;

// 1 to 3: counts, lengths and ids.
pub fn shape_number(
    n: usize,
    g: usize,
    e: usize,
    k: usize,
    d: usize,
    modules: ModuleLengths,
    records: RecordLengths,
    groups: GroupLengths,
    answers: usize,
    end: usize,
    offsets: &[u32],
) -> Result<(), Refusal>
    ensures { (b : Given) → HandsShape b n g e k d modules records groups answers end offsets.now → number_or_zero result ≡ first_number (shape_tests b) }
{
    if crate::counts::count_above(n, g, e, k, d) {
        return Err(Refusal::Count);
    }
    if crate::lengths::bad_table(n, g, d, modules, records, groups, answers) {
        return Err(Refusal::Length);
    }
    if crate::chains::bad_id(end, offsets) {
        return Err(Refusal::Id);
    }
    Ok(())
}

// 6 and 7: sizes and dependencies.
pub fn tree_number(
    flags: &[u8],
    sizes: &[u64],
    records: &Records,
    n: usize,
    d: usize,
) -> Result<(), Refusal>
    requires { (length flags.now ≡ length sizes.now) × RecordTables records.now.first.now records.now.dependency.now records.now.next.now n d }
    ensures { (b : Given) → HandsSizes b flags.now sizes.now
        → HandsRecords b records.now.first.now records.now.dependency.now records.now.next.now n d → number_or_zero result ≡ first_number (tree_tests b) }
{
    if sums::totals::bad_total(flags, sizes) {
        return Err(Refusal::Total);
    }
    if crate::chains::bad_dependency(records, n, d) {
        return Err(Refusal::Record);
    }
    Ok(())
}

// 9 and 10: bits and answers.
pub fn value_number(
    flags: &[u8],
    bits: &[u64],
    answers: &[u32],
    n: usize,
    e: usize,
    k: usize,
) -> Result<(), Refusal>
    requires { (length flags.now ≡ n) × (length bits.now ≡ 4 * n) × (k ≤ name_limit) }
    ensures { (b : Given) → HandsBits b flags.now bits.now n e → HandsAnswers b answers.now k
        → number_or_zero result ≡ first_number (value_tests b) }
{
    if crate::bits::bad_bit(flags, bits, n, e) {
        return Err(Refusal::Bit);
    }
    if sums::answers::bad_answer(answers, k) {
        return Err(Refusal::Number);
    }
    Ok(())
}

// 11 to 13: the state, with P counted before.
pub fn state_number(
    on_entry: usize,
    n: usize,
    lengths: AreaLengths,
    count: usize,
    scratch: usize,
) -> Result<(), Refusal>
    requires { (count ≤ pair_limit) × (n ≤ module_limit) }
    ensures { (b : Given) (a : Areas) → HandsAreas b a n count lengths scratch → number_or_zero result ≡ first_number (state_tests on_entry n (scratch_need b) a) }
{
    if crate::areas::bad_entry_count(on_entry) {
        return Err(Refusal::ChunkCount);
    }
    if crate::areas::bad_area(n, lengths) {
        return Err(Refusal::Area);
    }
    if crate::areas::scratch_short(count, n, scratch) {
        return Err(Refusal::Scratch);
    }
    Ok(())
}

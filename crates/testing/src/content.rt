// 6 to 10: what the tables hold, beside ids and execution orders.
ghost use Rattle.std.specs.Prelude.{◌≡◌};
ghost use Rattle.refusal.specs.Answers.{number_or_zero};
ghost use Rattle.refusal.specs.Outcome.{first_number};
ghost use Rattle.grouping.specs.Given.{Given};
ghost use Rattle.testing.specs.Content.{content_tests, ContentReady, HandsContent};
ghost use Rattle.options.specs.Tables.{tables_of};

use conditions::ladder::{tree_number, value_number};
use conditions::limits::bad_limit;
use options::Options;
use options::tables::Groups;
use records::Records;
use refusal::Refusal;

// Refuses by the first that applies.
pub fn content_number(
    n: usize,
    g: usize,
    e: usize,
    k: usize,
    d: usize,
    flags: &[u8],
    sizes: &[u64],
    bits: &[u64],
    records: &Records,
    options: Options,
    groups: &Groups,
    answers: &[u32],
) -> Result<(), Refusal>
    requires { ContentReady n g k d flags.now sizes.now bits.now records.now.first.now records.now.dependency.now records.now.next.now (tables_of groups.now) }
    ensures { (b : Given) → HandsContent b n g e k d flags.now sizes.now bits.now
        records.now.first.now records.now.dependency.now records.now.next.now answers.now options (tables_of groups.now) → number_or_zero result ≡ first_number (content_tests b) }
{
    tree_number(flags, sizes, records, n, d)?;
    if bad_limit(options, groups, g) {
        return Err(Refusal::Nan);
    }
    value_number(flags, bits, answers, n, e, k)
}

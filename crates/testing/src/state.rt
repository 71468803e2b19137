// 11 to 13: the conditions of the state, for a build that passed those of the input.
ghost use Rattle.std.specs.Prelude.{◌≡◌};
ghost use Rattle.grouping.specs.Given.{Given, Areas};
ghost use Rattle.grouping.specs.Conditions.{scratch_need, state_tests};
ghost use Rattle.refusal.specs.Answers.{number_or_zero};
ghost use Rattle.refusal.specs.Outcome.{first_number};
ghost use Rattle.sums.specs.Names.{AnswersWithin};
ghost use Rattle.testing.specs.Tested.{HandsState};

use conditions::AreaLengths;
use conditions::ladder::state_number;
use refusal::Refusal;
use sums::names::count_pairs;

// Refuses by the first that applies. The scratch is given by its length.
pub fn test_state(
    answers: &[u32],
    n: usize,
    g: usize,
    k: usize,
    on_entry: usize,
    lengths: AreaLengths,
    scratch: usize,
) -> Result<(), Refusal>
    requires { AnswersWithin answers.now n g k }
    ensures { (b : Given) (a : Areas) → HandsState b a answers.now n g k on_entry lengths scratch
        → number_or_zero result ≡ first_number (state_tests b.on_entry b.shared.n (scratch_need b) a) }
{
    let count = count_pairs(answers, n, g, k);
    state_number(on_entry, n, lengths, count, scratch)
}

// Refusal 10: an answer of K+2 or more.
ghost use Rattle.std.specs.Prelude.{◌≡◌, ◌≤◌};
ghost use Rattle.refusal.specs.Counts.{name_limit};
ghost use Rattle.grouping.specs.Given.{Given};
ghost use Rattle.grouping.specs.Conditions.{bad_answer};
ghost use Rattle.sums.specs.HandsIn.{HandsAnswers};

// The answers of all groups for all modules, and the count of names. All are looked at, also behind one that is refused: so several are compared at
// once.
pub fn bad_answer(answers: &[u32], k: usize) -> bool
    requires { k ≤ name_limit }
    ensures { (b : Given) → HandsAnswers b answers.now k → result ≡ bad_answer b }
{
    let limit = k as u32 + 2;
    let mut bad = false;
    for answer in answers {
        bad |= limit <= *answer;
    }
    bad
}

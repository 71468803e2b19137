// P: the distinct (group, name) pairs among answers of 2 or more. One pass over the answers, with a byte for each answer: the number plus 1 of
// the last group that had it. A group's mark is above those of the groups before it, so nothing is cleared in between. Answers 0 and 1, which
// have no name, are met like the others and taken off at the end, so that no answer is asked whether it has one.
ghost use Rattle.std.specs.Prelude.{◌≡◌, cond, ◌-◌, ◌<◌, length, set};
ghost use Rattle.sums.specs.Names.{has, RowReady, AnswersCounted, RowCounted, RowsReady, RowsCounted, AnswersWithin, PairsCounted};

// Marks an answer. Answers 0 if it was marked, else 1.
fn meet(answer: u32, seen: &mut [u8], mark: u8) -> usize
    requires { answer < length seen.old }
    ensures { (result ≡ cond (has seen.old mark answer) 0 1) × (seen.new ≡ set seen.old answer mark) }
{
    let at = answer as usize;
    let before = seen[at];
    seen[at] = mark;
    if before == mark { 0 } else { 1 }
}

// 1 if an answer is marked, else 0.
fn met(answer: usize, seen: &[u8], mark: u8) -> usize
    requires { answer < length seen.now }
    ensures { result ≡ cond (has seen.now mark answer) 1 0 }
{
    if seen[answer] == mark { 1 } else { 0 }
}

// The distinct answers of one group.
fn count_answers(row: &[u32], seen: &mut [u8], mark: u8) -> usize
    requires { RowReady row.now seen.old mark }
    ensures { AnswersCounted row.now seen.old seen.new mark result }
{
    let mut count = 0;
    for answer in row {
        count += meet(*answer, seen, mark);
    }
    count
}

// The distinct names among them.
fn count_names(row: &[u32], seen: &mut [u8], mark: u8) -> usize
    requires { RowReady row.now seen.old mark }
    ensures { RowCounted row.now seen.old seen.new mark result }
{
    let all = count_answers(row, seen, mark);
    let unmatched = met(0, seen, mark);
    let unnamed = met(1, seen, mark);
    all - unmatched - unnamed
}

// The same over g groups, whose answers stand one group after another.
fn count_rows(answers: &[u32], seen: &mut [u8], n: usize, g: usize) -> usize
    requires { RowsReady answers.now seen.old n g }
    ensures { RowsCounted answers.now (length seen.old - 2) n g result }
{
    let mut count = 0;
    for i in 0..g {
        let start = i * n;
        let end = start + n;
        count += count_names(&answers[start..end], seen, (i + 1) as u8);
    }
    count
}

// P, of answers that refusals 1, 2 and 10 leave. Few names get a short table, which costs less.
pub fn count_pairs(answers: &[u32], n: usize, g: usize, k: usize) -> usize
    requires { AnswersWithin answers.now n g k }
    ensures { PairsCounted answers.now n g k result }
{
    let bytes = k + 2;
    if bytes <= 4096 {
        let mut seen = [0u8; 4096];
        return count_rows(answers, &mut seen[..bytes], n, g);
    }
    let mut seen = [0u8; 65537];
    count_rows(answers, &mut seen[..bytes], n, g)
}

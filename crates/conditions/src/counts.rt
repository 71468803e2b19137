// Refusal 1: a count above its limit.
ghost use Rattle.std.specs.Prelude.{◌≡◌};
ghost use Rattle.grouping.specs.Given.{Given};
ghost use Rattle.grouping.specs.Conditions.{count_above};
ghost use Rattle.conditions.specs.HandsIn.{HandsCounts};

pub fn count_above(n: usize, g: usize, e: usize, k: usize, d: usize) -> bool
    ensures { (b : Given) → HandsCounts b n g e k d → result ≡ count_above b }
{
    (refusal::MODULE_LIMIT < n)
        | (refusal::GROUP_LIMIT < g)
        | (refusal::ENTRY_LIMIT < e)
        | (refusal::NAME_LIMIT < k)
        | (refusal::RECORD_LIMIT < d)
}

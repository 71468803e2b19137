// A limit is a double, or none. What it asks of a number, and refusal 8.
#![tactic(auto)]

ghost use Rattle.std.specs.Prelude.{◌≡◌};
ghost use Rattle.std.specs.Float.Ieee.{is_nan};
ghost use Rattle.limit.specs.Limits.{is_nan_limit, at_least, at_most};

pub fn is_nan(x: f64) -> bool
    ensures { result ≡ is_nan x }
{
    x.is_nan()
}

// Refusal 8: a given limit is NaN.
pub fn is_nan_limit(limit: Option<f64>) -> bool
    ensures { result ≡ is_nan_limit limit }
{
    limit.is_some_and(|given| given.is_nan())
}

pub fn at_least(limit: Option<f64>, x: f64) -> bool
    ensures { result ≡ at_least limit x }
{
    limit.is_none_or(|least| least <= x)
}

pub fn at_most(limit: Option<f64>, x: f64) -> bool
    ensures { result ≡ at_most limit x }
{
    limit.is_none_or(|most| x <= most)
}

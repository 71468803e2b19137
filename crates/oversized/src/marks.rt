// Marks of chunks: why one is too large.
ghost use Rattle.std.specs.Prelude.{◌≡◌};
ghost use Rattle.cut.specs.Call.{chosen_of};
ghost use Rattle.settling.specs.Pieces.{mark_by};

use cut::Cut;

// At most the maximum, or there is none.
pub const WITHIN: u8 = 0;
// Above it with one module.
pub const ONE_MODULE: u8 = 1;
// Above it with more modules, of which no cut is allowed.
pub const NO_CUT_ALLOWED: u8 = 2;
// Above it and still to be cut. No chunk has it.
pub const STILL_TO_CUT: u8 = 3;

// The mark of modules of a size, by what their cut answered.
pub fn mark_by(maximum: f64, size: f64, answer: Cut) -> u8
    ensures { result ≡ mark_by maximum size (chosen_of answer) }
{
    if !(maximum < size) {
        return WITHIN;
    }
    match answer {
        Cut::FewerThanTwo => ONE_MODULE,
        Cut::NoneAllowed => NO_CUT_ALLOWED,
        Cut::At(_) => STILL_TO_CUT,
    }
}

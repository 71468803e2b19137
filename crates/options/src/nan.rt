// Refusal 8 over options: a given limit or threshold is NaN.
ghost use Rattle.std.specs.Prelude.{◌≡◌};
ghost use Rattle.options.specs.Nan.{nan_options, nan_group};

use crate::{Group, Options};
use limit::is_nan_limit;

#[tactic(auto, unfolding(crate::specs::Nan::nan_options))]
pub fn nan_options(options: Options) -> bool
    ensures { result ≡ nan_options options }
{
    is_nan_limit(options.min_size)
        || is_nan_limit(options.max_size)
        || is_nan_limit(options.min_module_size)
        || is_nan_limit(options.max_module_size)
}

#[tactic(auto, unfolding(crate::specs::Nan::nan_group))]
pub fn nan_group(g: Group) -> bool
    ensures { result ≡ nan_group g }
{
    nan_options(g.options) || g.threshold.is_nan()
}

// The chunk list in lent areas as lines of the text form, and lines for what is wrong with the areas.
#![tactic(auto)]

pub mod areas;
pub mod list;
pub mod looks;

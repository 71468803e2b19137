// Runs the largest build, and the same with one change each, mostly in the last entry of a table: a line for each says what is changed, and
// what comes of it. Every entry of every lent area is looked at; what is wrong is a line that begins with `!`.
#![tactic(auto)]

mod build;

use largesttables::change;

fn main() {
    for change in change::ALL {
        textform::out::text(change.label());
        build::run(change);
    }
}

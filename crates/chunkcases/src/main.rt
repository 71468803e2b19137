// Runs the case of document 01 and prints it whole: modules 0 "app", 1 "lib/a", 2 "lib/b" and 3 "theme", two groups, two names.
#![tactic(auto)]

use buildcalls::Form;
use buildlines::reader::Reader;

// Module 0 depends on 1, and 1 on 2. Group 0 gives module 1 the name 0. Group 1 gives module 0 the name 1; of its options it has recursion
// only, which is off, and its priority is 5. The areas are as long as is needed: two pairs of a group and a name, and four modules, need
// 2 * 4 + 32 * 4 words of scratch.
fn main() {
    let mut reader = Reader::new(
        b"4 2 1 2 2 0 o - - - - - - \
          m 3 40 3 0 0 1 0 0 0 1 617070 m 3 10 1 0 0 1 0 0 0 2 6c69622f61 \
          m 3 20 2 0 0 1 0 0 0 0 6c69622f62 m 3 30 0 0 0 1 0 0 0 0 7468656d65 \
          d 1 0 d 2 0 g - - - - - - 0 0 - - g - - - - - 0 0 5 - - \
          a 0 2 0 0 a 3 0 0 0 areas 4 4 4 136 end",
    );
    let _ = buildtables::answer_case(Form::Table, b"document 01", &mut reader);
}

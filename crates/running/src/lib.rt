// What holds between two items of a run: the chunks so far, and the areas that hold them. No code.
#![tactic(auto)]

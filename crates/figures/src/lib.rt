// The marked figures are proved of the definitions in specs/ and proofs/. No code.
#![tactic(auto)]

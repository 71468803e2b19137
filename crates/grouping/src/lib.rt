// The definition of Chunks in specs/, with its worked examples and the claim over them. The call itself stands in the crates above.
#![tactic(auto)]

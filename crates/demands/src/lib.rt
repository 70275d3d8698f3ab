// No code: the demands, the marked examples and the one-outcome claims, as theorems over the promises of the crates
// below.
#![tactic(auto)]

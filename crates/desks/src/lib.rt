// Wish 7's sentences as theorems about any desk and any run of calls. No code: statements in specs/, proofs beside them.
#![tactic(auto)]

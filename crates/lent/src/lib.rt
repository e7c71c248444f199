// The desk over a lent table is the desk: a theorem over any run of calls. No code: statements in specs/, proofs beside them.
#![tactic(auto)]

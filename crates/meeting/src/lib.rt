// The desk and the soft card meet: theorems over both products. No code: statements in specs/, proofs beside them.
#![tactic(auto)]

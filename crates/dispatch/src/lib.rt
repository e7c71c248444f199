// From a line of the clerk's trace to the call of the card that it is, and a trace answered by any box: the statements are in specs/, their proofs in
// proofs/. There is no code.
#![tactic(auto)]

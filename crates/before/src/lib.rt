// What longer messages and lines left as it was, and which cards the side of the zeros touches: the statements are in specs/, their proofs in
// proofs/. There is no code.
#![tactic(auto)]

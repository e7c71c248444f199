// Demands 2 and 3 as theorems about the card's calls: the statements are in specs/, their proofs in proofs/. There is no code.
#![tactic(auto)]

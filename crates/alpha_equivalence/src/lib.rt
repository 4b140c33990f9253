// Two tables that differ in the numbers of bound variables alone, and have one highest number, lift to
// the same words. The statements stand in specs/, their proofs in proofs/; there is no code.
#![tactic(auto)]

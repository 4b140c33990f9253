// List entries that no block covers change no outcome. The statements stand in specs/, their proofs in
// proofs/; there is no code.
#![tactic(auto)]

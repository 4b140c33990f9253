// A table without its empty blocks, as a definition (specs/), and what holds of it (proofs/).
#![tactic(auto)]

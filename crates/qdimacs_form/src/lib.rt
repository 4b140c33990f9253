// The clauses of a prenex form, and what holds of them. The definitions stand in specs/, their laws in
// proofs/; there is no code.
#![tactic(auto)]

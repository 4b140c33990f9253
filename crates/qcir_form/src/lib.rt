// The QCIR file of a prenex form, and what holds of it. The definitions stand in specs/, their laws in
// proofs/; there is no code.
#![tactic(auto)]

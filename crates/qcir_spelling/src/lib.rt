// How the spelling of QCIR texts is decided: a machine that takes one byte at a time, and the laws
// that tie it to the grammar. The machine stands in specs/, the laws in proofs/; there is no code.
#![tactic(auto)]

// What QCIR files say and mean, which of them are refused, and the formula table of a file. The
// definitions stand in specs/, their laws in proofs/; there is no code.
#![tactic(auto)]

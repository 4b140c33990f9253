// From file to file: what is read from a QCIR file, lifted and written again as a QCIR file has the
// first file's truth value. The statements stand in specs/, their proofs in proofs/; there is no code.
#![tactic(auto)]

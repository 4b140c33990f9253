// A form's QCIR file read back is the file it was written as, and what is owed of a text that is written. The statements
// stand in specs/, their proofs in proofs/; there is no code.
#![tactic(auto)]

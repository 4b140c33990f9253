// Document 01's "Formulas to try" that are to be proved: the rows stand in specs/, the claim about
// all of them in proofs/. There is no code.
#![tactic(auto)]

// What QDIMACS texts say and mean, in specs/: blocks and clauses, the texts that spell them, and their truth
// value; that a text says one problem, and that the text of a problem says it, is proved in proofs/.
#![tactic(auto)]

// A table whose root is a block, and its prenex form: what values of the form's first block say of the
// root's variables. The statement stands in specs/, its proof in proofs/; there is no code.
#![tactic(auto)]

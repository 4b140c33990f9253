// Which formula tables are accepted, as a definition (specs/), and what holds of every accepted table
// (proofs/). The code here is what all checkers of nodes share.

#![tactic(auto)]

ghost use Rattle.std.specs.Prelude.{◌≡◌};
ghost use Rattle.acceptance.specs.Verdict.{partial_node};

// At most so many nodes, list entries, and variables bound by all blocks together.
pub const LIMIT: usize = 4096;

// Whether the words are no whole nodes, or none at all.
pub fn partial_node(words: &[u32]) -> bool
    ensures { result ≡ partial_node words.now }
{
    words.is_empty() | (words.len() % formula::WIDTH != 0)
}

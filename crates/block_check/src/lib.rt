// The tests of a block's words, which read no entry of its range, and the name that it counts.
#![tactic(auto)]

ghost use Rattle.std.specs.Prelude.{true, [], ◌∷◌, ◌≡◌, ℕ, ◌+◌, ◌≤◌, get_or};
ghost use Rattle.lists.specs.Members.{times};
ghost use Rattle.acceptance.specs.Limits.{limit};
ghost use Rattle.tree_check.specs.Named.{Room};
ghost use Rattle.block_check.specs.Fault.{block_fault, passable};

use acceptance::LIMIT;
use formula::NodeWords;
use refusals::{ACCEPTED, EMPTY_BLOCK, FORWARD_REFERENCE, RANGE_PAST_END, TOO_MANY_VARIABLES};

// The first of refusals 4 to 6 and 16 that applies to a block at node i, in the order of their tests. The list has so many
// entries, and the nodes below the block bind `before` variables. Where the pass may go on, `named` has counted the body.
//
// The contract rules out tests in another order: 6 before 5, 16 before 5 and 16 before 4.
pub fn block_fault(
    entries: usize,
    i: usize,
    before: usize,
    node: NodeWords,
    named: &mut [u16],
) -> u32
    requires before_le_limit { before ≤ limit }
    requires room { Room named.old i }
    ensures value { result ≡ block_fault entries i before node }
    ensures x_after { passable result ≡ true → (x : ℕ) → get_or named.new x 0 ≡ get_or named.old x 0 + times x (node.c ∷ []) }
{
    let body = node.c as usize;
    let count = node.b as usize;
    let end = node.a as usize + count;
    let bound = before + count;
    let binds_none = count == 0;
    if i <= body {
        return FORWARD_REFERENCE; // 4
    }
    if entries < end {
        return RANGE_PAST_END; // 5
    }
    // an empty block of a stored table names its body too
    tree_check::count_name(node.c, named);
    if binds_none {
        return EMPTY_BLOCK; // 16
    }
    if LIMIT < bound {
        return TOO_MANY_VARIABLES; // 6
    }
    ACCEPTED
}

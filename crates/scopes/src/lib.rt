// The parent block and the level of each node of an accepted table, and the counts that give the sizes
// of its prenex form: one pass from the root down, which visits each node once.
#![tactic(auto)]

ghost use Rattle.std.specs.Prelude.{true, [], ◌∷◌, ◌≡◌, ◌+◌, ◌<◌, length};
ghost use Rattle.formula.specs.Node.{is_block};
ghost use Rattle.formula.specs.Words.{node_count, node_at, table_of};
ghost use Rattle.refusals.specs.Verdict.{accepted};
ghost use Rattle.acceptance.specs.Limits.{limit};
ghost use Rattle.acceptance.specs.Verdict.{verdict};
ghost use Rattle.arrays.specs.Held.{Parents, NodeLevels};
ghost use Rattle.block_counts.specs.Counting.{CountsFrom, BlockCounts};
ghost use Rattle.scopes.specs.Passes.{Stored, ScopesFrom};

use block_counts::Counts;
use formula::{NEGATION, OPERATOR};

// How many nodes the pass has visited, and the counts.
#[derive(Clone, Copy)]
pub struct Pass {
    pub visited: u32,
    pub counts: Counts,
}

// The parent block and the level of each node, the number of nodes visited, and the counts. Each node
// hands down to its operands, so one pass from the root down suffices, and nothing climbs. The contract
// has each node's level by its definition on the node's path (`level`), and the visits as the number of
// nodes.
//
// It rules out a pass that skips a node, one that counts a node twice, one that adds a level at the
// root block, and one that takes the level of another node than the parent.
pub fn fill_scopes(words: &[u32], list: &[u32], parents: &mut [u32], levels: &mut [u16]) -> Pass
    requires list_value { verdict words.now list.now ≡ accepted }
    requires parents_len { (length parents.old ≡ limit) × (length levels.old ≡ limit) }
    ensures parents { Parents (table_of words.now list.now) parents.new }
    ensures levels { NodeLevels (table_of words.now list.now) levels.new }
    ensures visited { result.visited ≡ node_count words.now }
    ensures counts { BlockCounts (table_of words.now list.now) result.counts }
{
    let count = words.len() / formula::WIDTH;
    parents[count - 1] = count as u32;
    levels[count - 1] = 0;
    let mut pass = Pass {
        visited: 0,
        counts: block_counts::no_blocks(),
    };
    for i in (0..count).rev() {
        fill_node(words, list, parents, levels, &mut pass, i);
    }
    pass
}

// Visits node i, whose parent block and parent's level are known: its own level, what its operands
// inherit, and the counts with it. A node that is no block is of its parent's level and adds to the
// visits alone.
fn fill_node(
    words: &[u32],
    list: &[u32],
    parents: &mut [u32],
    levels: &mut [u16],
    pass: &mut Pass,
    i: usize,
)
    requires list_value { verdict words.now list.now ≡ accepted }
    requires i_bound { (i < node_count words.now) × (pass.old.visited < limit) }
    requires parents_len { (length parents.old ≡ limit) × (length levels.old ≡ limit) }
    requires scopes_from { ScopesFrom (table_of words.now list.now) (i + 1) parents.old levels.old }
    requires counts_from { CountsFrom (table_of words.now list.now) (i + 1) pass.old.counts }
    ensures scopes_from_2 { ScopesFrom (table_of words.now list.now) i parents.new levels.new }
    ensures visited_value { pass.new.visited ≡ pass.old.visited + 1 }
    ensures counts_from_2 { CountsFrom (table_of words.now list.now) i pass.new.counts }
{
    let node = formula::node_at(words, i);
    let block = parents[i];
    let level = levels[i];
    pass.visited += 1;
    if node.kind == OPERATOR {
        hand_down(parents, levels, node.b, block, level);
        hand_down(parents, levels, node.c, block, level);
    } else if node.kind == NEGATION {
        hand_down(parents, levels, node.a, block, level);
    } else if formula::is_block_kind(node.kind) {
        fill_block(words, list, parents, levels, &mut pass.counts, i);
    }
}

// The same of a block, but for the visit: it is its body's parent block. An inner one is one level below
// its parent; the root adds no level.
fn fill_block(
    words: &[u32],
    list: &[u32],
    parents: &mut [u32],
    levels: &mut [u16],
    counts: &mut Counts,
    i: usize,
)
    requires list_value { verdict words.now list.now ≡ accepted }
    requires i_bound { (i < node_count words.now) × (is_block (node_at words.now list.now i) ≡ true) }
    requires parents_len { (length parents.old ≡ limit) × (length levels.old ≡ limit) }
    requires scopes_from { ScopesFrom (table_of words.now list.now) (i + 1) parents.old levels.old }
    requires counts_from { CountsFrom (table_of words.now list.now) (i + 1) counts.old }
    ensures scopes_from_2 { ScopesFrom (table_of words.now list.now) i parents.new levels.new }
    ensures counts_from_2 { CountsFrom (table_of words.now list.now) i counts.new }
{
    let node = formula::node_at(words, i);
    let inherited = levels[i];
    let level = inherited + 1;
    if i + 1 == words.len() / formula::WIDTH {
        hand_down(parents, levels, node.c, i as u32, inherited);
        counts.count_root(node.b);
    } else {
        levels[i] = level;
        hand_down(parents, levels, node.c, i as u32, level);
        counts.count_inner(node.b, level as u32);
    }
}

// Operand x of a node inherits a parent block and a level.
fn hand_down(parents: &mut [u32], levels: &mut [u16], x: u32, block: u32, level: u16)
    requires { (x < limit) × (length parents.old ≡ limit) × (length levels.old ≡ limit) }
    ensures stored { Stored (x ∷ []) block parents.old parents.new }
    ensures stored_2 { Stored (x ∷ []) level levels.old levels.new }
{
    parents[x as usize] = block;
    levels[x as usize] = level;
}

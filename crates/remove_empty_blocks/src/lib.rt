// Removes the empty blocks of a formula table.
#![tactic(auto)]

ghost use Rattle.std.specs.Prelude.{false, ◌≡◌, ◌+◌, ◌*◌, ◌<◌, ◌≤◌, length, get_or};
ghost use Rattle.lists.specs.Parts.{overwrite};
ghost use Rattle.formula.specs.Words.{width, node_count};
ghost use Rattle.acceptance.specs.Verdict.{forward_reference};
ghost use Rattle.empty_blocks.specs.Removal.{
  stays as stays_of,
  left_below,
  renumbered,
  left_of,
  without_empty_blocks,
};
ghost use Rattle.remove_empty_blocks.specs.Outcome.{after, storing, removed, TableLeft};
ghost use Rattle.remove_empty_blocks.specs.Steps.{SmallTable, NewIndices};

use acceptance::LIMIT;
use formula::{NEGATION, NodeWords, OPERATOR, WIDTH};
use refusals::{ACCEPTED, BUFFER_TOO_SHORT, Verdict};

// The verdict, and how many nodes are left.
#[derive(Clone, Copy)]
pub struct Removed {
    pub verdict: Verdict,
    pub nodes: u32,
}

// Writes a table's nodes without its empty blocks to the start of `nodes`: the body is named where the
// block was, what follows is renumbered in order, and the list stays as it is. The checker accepts
// what is written, and it has the table's truth value and free variables. Nothing is written unless
// there is room for all of it.
//
// The contract rules out a removal that refuses an empty block, one that names the block's own index
// instead of its body's, one that leaves the old indices, one that keeps an empty root, and one that
// removes a block with variables.
pub fn remove_empty_blocks(words: &[u32], list: &[u32], nodes: &mut [u32]) -> Removed
    ensures outcome { after result nodes.new
        ≡ removed words.now list.now nodes.old }
    ensures table { TableLeft words.now list.now (after result nodes.new) }
{
    let verdict = table_check::check_stored(words, list);
    if verdict.number != ACCEPTED {
        return Removed { verdict, nodes: 0 };
    }
    store_left(words, nodes)
}

// Writes the nodes that are left of a table with lower operands. They are counted first.
fn store_left(words: &[u32], nodes: &mut [u32]) -> Removed
    requires { SmallTable words.now }
    ensures { after result nodes.new ≡ storing nodes.old (without_empty_blocks words.now) }
{
    let left = count_left(words);
    if nodes.len() < WIDTH * left {
        let verdict = refusals::refusal(BUFFER_TOO_SHORT, 0);
        return Removed { verdict, nodes: 0 };
    }
    write_left(words, nodes);
    let verdict = refusals::accepted();
    let count = left as u32;
    Removed {
        verdict,
        nodes: count,
    }
}

// How many nodes are no empty blocks.
fn count_left(words: &[u32]) -> usize
    requires { SmallTable words.now }
    ensures { result ≡ left_below words.now (node_count words.now) }
{
    let mut left: usize = 0;
    for i in 0..words.len() / WIDTH {
        left += stays(words, i) as usize;
    }
    left
}

// Whether node i is no empty block.
fn stays(words: &[u32], i: usize) -> bool
    requires { i < node_count words.now }
    ensures { result ≡ stays_of words.now i }
{
    let node = formula::node_at(words, i);
    !formula::is_empty_block(node)
}

// Writes the nodes that are no empty blocks, from the lowest up.
fn write_left(words: &[u32], nodes: &mut [u32])
    requires small_table { SmallTable words.now }
    requires words_in_bounds { width * left_below words.now (node_count words.now) ≤ length nodes.old }
    ensures { nodes.new ≡ overwrite nodes.old 0 (without_empty_blocks words.now) }
{
    let mut indices = [0u16; LIMIT];
    let mut at: usize = 0;
    for i in 0..words.len() / WIDTH {
        at = write_node(words, nodes, &mut indices, i, at);
    }
}

// Writes node i as node `at`, unless it is an empty block, and notes its new index. The result is the
// index where the next node goes.
fn write_node(words: &[u32], nodes: &mut [u32], indices: &mut [u16], i: usize, at: usize) -> usize
    requires small_table { SmallTable words.now }
    requires i_bound { i < node_count words.now }
    requires new_indices { NewIndices words.now indices.old i }
    requires at_value { at ≡ left_below words.now i }
    requires i_in_bounds { width * left_below words.now (i + 1) ≤ length nodes.old }
    ensures value { result ≡ left_below words.now (i + 1) }
    ensures new_indices_2 { NewIndices words.now indices.new (i + 1) }
    ensures nodes_after { nodes.new ≡ overwrite nodes.old (width * at) (left_of words.now i) }
{
    let node = formula::node_at(words, i);
    let index = at as u16;
    if !stays(words, i) {
        let body = indices[node.c as usize];
        indices[i] = body;
        return at;
    }
    indices[i] = index;
    let left = renumber(node, indices);
    formula::put_node(nodes, at, left);
    at + 1
}

// A node with each operand and body at its new index.
fn renumber(node: NodeWords, indices: &[u16]) -> NodeWords
    requires { forward_reference (length indices.now) node ≡ false }
    ensures { result ≡ renumbered (λ x. get_or indices.now x 0) node }
{
    if node.kind == OPERATOR {
        let left = indices[node.b as usize] as u32;
        let right = indices[node.c as usize] as u32;
        return formula::operator_node(node.a, left, right);
    }
    if formula::is_block_kind(node.kind) {
        let body = indices[node.c as usize] as u32;
        return formula::block_node(node.kind, node.a, node.b, body);
    }
    if node.kind == NEGATION {
        let operand = indices[node.a as usize] as u32;
        return NodeWords { a: operand, ..node };
    }
    node
}

// Writes the nodes of a prenex form that come after those of its table (document 01, "The written
// form": for each level its blocks' constraints, joined to the matrix) into a lent buffer.
#![tactic(auto)]

ghost use mathlib.Core.List.{[], ◌∷◌, flat_map};
ghost use Rattle.std.specs.Prelude.{◌≡◌, ◌+◌, ◌*◌, ◌-◌, ◌≤◌, ◌<◌, length};
ghost use Rattle.lists.specs.Parts.{overwrite};
ghost use Rattle.formula.specs.Node.{variable, operator};
ghost use Rattle.formula.specs.Words.{width, node_words};
ghost use Rattle.prenex_form.specs.Quantifiers.{node_quantifier};
ghost use Rattle.prenex_form.specs.Levels.{levels};
ghost use Rattle.prenex_form.specs.Matrix.{kept, guard, constraint, further, level_join, level_nodes};
ghost use Rattle.arrays.specs.Chains.{InnerBlock};
ghost use Rattle.arrays.specs.Blocks.{table};
ghost use Rattle.matrix_writer.specs.Added.{added_nodes};
ghost use Rattle.matrix_writer.specs.Buffer.{with_nodes, Room, Wrote};
ghost use Rattle.matrix_writer.specs.Entries.{entry_nodes, entries_nodes, definition_nodes, guard_nodes};
ghost use Rattle.matrix_writer.specs.Chain.{IsLevel, nodes_after};

use arrays::Blocks;
use formula::{WIDTH, node_at, operator_node, put_node, variable_node};
use prenex_form::Quantifier;

// The truth tables of the operators that are written.
const AND: u32 = 8;

const OR: u32 = 14;

const IFF: u32 = 9;

const IMPLIES: u32 = 11;

// Writes a variable node.
fn put_variable(nodes: &mut [u32], at: u32, x: u32)
    requires { Room nodes.old at 1 }
    ensures { nodes.new ≡ with_nodes nodes.old at (variable x ∷ []) }
{
    put_node(nodes, at as usize, variable_node(x));
}

// Writes an operator node.
fn put_operator(nodes: &mut [u32], at: u32, table: u32, left: u32, right: u32)
    requires { Room nodes.old at 1 }
    ensures { nodes.new ≡ with_nodes nodes.old at (operator table left right ∷ []) }
{
    put_node(nodes, at as usize, operator_node(table, left, right));
}

// Writes the nodes of entry k of a block, whose name is x and whose copy is y.
fn write_entry(nodes: &mut [u32], at: u32, k: u32, x: u32, y: u32) -> u32
    requires at_nonzero { 0 < at }
    requires room { Room nodes.old at 4 }
    ensures { Wrote nodes.old at (entry_nodes x y at k) nodes.new result }
{
    put_variable(nodes, at, x);
    put_variable(nodes, at + 1, y);
    put_operator(nodes, at + 2, IFF, at, at + 1);
    if k == 0 {
        return at + 3;
    }
    put_operator(nodes, at + 3, AND, at - 1, at + 2);
    at + 4
}

// Writes the equations of a block's entries, whose first name is x and whose first copy is y. The
// four nodes of an entry are document 01's.
fn write_entries(nodes: &mut [u32], s: u32, count: u32, x: u32, y: u32) -> u32
    requires s_nonzero { 0 < s }
    requires room { Room nodes.old s (4 * count) }
    requires count_bound_1 { x + count ≤ 4294967295 }
    requires count_bound_2 { y + count ≤ 4294967295 }
    ensures wrote { Wrote nodes.old s (entries_nodes x y s count) nodes.new result }
    ensures value { result ≡ s + (4 * count - 1) }
{
    let mut next = s;
    for k in 0..count {
        next = write_entry(nodes, next, k, x + k, y + k);
    }
    next
}

// Writes step 1 of a constraint: the block's definition variable, and its equation with the body.
fn write_definition(nodes: &mut [u32], at: u32, definition: u32, body: u32)
    requires { Room nodes.old at 2 }
    ensures { nodes.new ≡ with_nodes nodes.old at (definition_nodes at definition body) }
{
    put_variable(nodes, at, definition);
    put_operator(nodes, at + 1, IFF, at, body);
}

// Writes the end of step 2: the definition variable, the guard that joins it with the equations
// before it, and the conjunction of this with step 1.
fn write_guard(nodes: &mut [u32], at: u32, definition: u32, table: u32, equation: u32)
    requires at_nonzero { 0 < at }
    requires room { Room nodes.old at 3 }
    ensures { nodes.new ≡ with_nodes nodes.old at (guard_nodes at definition table equation) }
{
    put_variable(nodes, at, definition);
    put_operator(nodes, at + 1, table, at, at - 1);
    put_operator(nodes, at + 2, AND, equation, at + 1);
}

// The truth table that guards the equations of a block of this quantifier.
fn guard_table(quantifier: Quantifier) -> u32
    ensures { result ≡ guard (node_quantifier quantifier) }
{
    match quantifier {
        Quantifier::Exists => OR,
        Quantifier::ForAll => IMPLIES,
    }
}

// Writes the constraint of inner block i.
fn write_constraint(blocks: &Blocks, nodes: &mut [u32], i: usize, at: u32) -> u32
    requires inner_block { InnerBlock (table blocks.now) i }
    requires room { Room nodes.old at (length (constraint (table blocks.now) i at)) }
    ensures { Wrote nodes.old at (constraint (table blocks.now) i at) nodes.new result }
{
    let block = node_at(blocks.words, i);
    let definition = blocks.definitions[i];
    write_definition(nodes, at, definition, block.c);
    let start = blocks.starts[i] as u32;
    let next = write_entries(
        nodes,
        at + 2,
        block.b,
        blocks.names + start,
        blocks.copies + start,
    );
    let table = guard_table(Quantifier::of_kind(block.kind));
    write_guard(nodes, next, definition, table, at + 1);
    next + 3
}

// Writes the constraint of a block after its level's first, and the conjunction of those before
// with it.
fn write_next(blocks: &Blocks, nodes: &mut [u32], i: usize, at: u32) -> u32
    requires inner_block { InnerBlock (table blocks.now) i }
    requires at_nonzero { 0 < at }
    requires room { Room nodes.old at (length (further (table blocks.now) (i ∷ []) at)) }
    ensures { Wrote nodes.old at (further (table blocks.now) (i ∷ []) at) nodes.new result }
{
    let end = write_constraint(blocks, nodes, i, at);
    put_operator(nodes, end, AND, at - 1, end - 1);
    end + 1
}

// Writes the constraints of the blocks after block i of its level.
fn write_further(blocks: &Blocks, nodes: &mut [u32], i: usize, at: u32) -> u32
    requires inner_block { InnerBlock (table blocks.now) i }
    requires at_nonzero { 0 < at }
    requires room { Room nodes.old at (length (nodes_after (table blocks.now) i at)) }
    ensures { Wrote nodes.old at (nodes_after (table blocks.now) i at) nodes.new result }
{
    let mut next = at;
    let mut left = blocks.next_block(i);
    while let Some(block) = left {
        next = write_next(blocks, nodes, block, next);
        left = blocks.next_block(block);
    }
    next
}

// Writes how a level's constraints are joined to the matrix, by the level's
// quantifier.
fn write_join(nodes: &mut [u32], at: u32, quantifier: Quantifier, matrix: u32, constraints: u32)
    requires { Room nodes.old at 1 }
    ensures { nodes.new ≡ with_nodes nodes.old at (level_join (node_quantifier quantifier) matrix constraints ∷ []) }
{
    match quantifier {
        Quantifier::Exists => put_operator(nodes, at, IMPLIES, constraints, matrix),
        Quantifier::ForAll => put_operator(nodes, at, AND, matrix, constraints),
    }
}

// Writes the nodes of level j + 1, which has this quantifier.
fn write_level(blocks: &Blocks, nodes: &mut [u32], j: usize, quantifier: Quantifier, at: u32) -> u32
    requires is_level { IsLevel (table blocks.now) j (node_quantifier quantifier) }
    requires at_nonzero { 0 < at }
    requires room { Room nodes.old at (length (level_nodes (table blocks.now) j at)) }
    ensures { Wrote nodes.old at (level_nodes (table blocks.now) j at) nodes.new result }
{
    // A level has blocks.
    let Some(first) = blocks.first_block(j + 1) else {
        return at;
    };
    let next = write_constraint(blocks, nodes, first, at);
    let end = write_further(blocks, nodes, first, next);
    write_join(nodes, end, quantifier, at - 1, end - 1);
    end + 1
}

// Writes the nodes of all levels after the table's own, the first at index `first`. Levels
// alternate from the root's quantifier; a root that is no block counts as for-all.
pub fn write_levels(blocks: &Blocks, nodes: &mut [u32], first: usize, deepest: usize)
    requires first_value { first ≡ kept (table blocks.now) }
    requires deepest_value { deepest ≡ levels (table blocks.now) }
    requires room { Room nodes.old first (length (added_nodes (table blocks.now) deepest)) }
    ensures { let t = table blocks.now in nodes.new ≡ overwrite nodes.old (width * kept t) (flat_map node_words (added_nodes t (levels t))) }
{
    let root = node_at(blocks.words, blocks.words.len() / WIDTH - 1);
    let mut quantifier = Quantifier::of_kind(root.kind);
    let mut next = first as u32;
    for j in 0..deepest {
        next = write_level(blocks, nodes, j, quantifier, next);
        quantifier = quantifier.dual();
    }
}

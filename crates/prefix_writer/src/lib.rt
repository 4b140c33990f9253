// The prefix of a prenex form: its blocks, three words each, and the list of their variables, one block's after the
// other's.
#![tactic(auto)]

ghost use mathlib.Core.List.{[], ◌∷◌, flat_map};
ghost use Rattle.std.specs.Prelude.{◌≡◌, ◌+◌, ◌*◌, ◌≤◌, ◌<◌, length};
ghost use Rattle.lists.specs.Parts.{numbers, overwrite};
ghost use Rattle.formula.specs.Words.{node_count};
ghost use Rattle.formula.specs.Form.{prefix_width, kind_of};
ghost use Rattle.acceptance.specs.Verdict.{count_at};
ghost use Rattle.prenex_form.specs.Quantifiers.{node_quantifier};
ghost use Rattle.prenex_form.specs.Levels.{blocks_at, levels, level_quantifier};
ghost use Rattle.prenex_form.specs.Prefix.{
  block_count,
  leading,
  prefix_block,
  written_prefix,
  written_variables,
};
ghost use Rattle.arrays.specs.Chains.{InnerBlock};
ghost use Rattle.arrays.specs.Blocks.{table};
ghost use Rattle.prefix_writer.specs.Parts.{highest_first, numbered, part_of};

use arrays::Blocks;
use prenex_form::Quantifier;

// The words of a prefix block: its kind, where its variables start in the list, and how many there are.
pub const PREFIX_WIDTH: usize = 3;

// What a block adds to the variables of a prefix block.
#[derive(Clone, Copy)]
enum Part {
    // Its names, then its definition variable.
    Own,
    Copies,
}

// Writes the prefix blocks and their variables from the start of the two buffers. A table without
// blocks, whose count is 0, has none.
pub fn write_prefix(
    blocks: &Blocks,
    prefix: &mut [u32],
    variables: &mut [u32],
    count: usize,
    level_count: usize,
)
    requires counts { (count ≡ block_count (table blocks.now)) × (level_count ≡ levels (table blocks.now)) }
    requires list_in_bounds { length (written_prefix (table blocks.now)) ≤ length prefix.old }
    requires list_in_bounds_2 { length (written_variables (table blocks.now)) ≤ length variables.old }
    ensures prefix_after { prefix.new ≡ overwrite prefix.old 0 (written_prefix (table blocks.now)) }
    ensures variables_after { variables.new ≡ overwrite variables.old 0 (written_variables (table blocks.now)) }
{
    if count == 0 {
        return;
    }
    let mut quantifier = first_quantifier(blocks);
    let mut at: usize = 0;
    for j in 0..=level_count {
        at = write_block(blocks, prefix, variables, j, quantifier, at);
        quantifier = quantifier.dual();
    }
}

// The quantifier of prefix block 0: the root's if it is a block, else for-all.
fn first_quantifier(blocks: &Blocks) -> Quantifier
    ensures { node_quantifier result ≡ level_quantifier (table blocks.now) 0 }
{
    let root = formula::node_at(blocks.words, blocks.words.len() / formula::WIDTH - 1);
    Quantifier::of_kind(root.kind)
}

// Writes prefix block j, whose variables go in from entry at on, and returns where they end.
fn write_block(
    blocks: &Blocks,
    prefix: &mut [u32],
    variables: &mut [u32],
    j: usize,
    quantifier: Quantifier,
    at: usize,
) -> usize
    requires j_bound { j ≤ levels (table blocks.now) }
    requires prefix_width_in_bounds { prefix_width * j + prefix_width ≤ length prefix.old }
    requires j_in_bounds { at + length (prefix_block (table blocks.now) j).variables ≤ length variables.old }
    requires j_bound_2 { at + length (prefix_block (table blocks.now) j).variables < 4294967296 }
    ensures prefix_after { prefix.new ≡ overwrite prefix.old (prefix_width * j) (kind_of (node_quantifier quantifier) ∷ at ∷ length (prefix_block (table blocks.now) j).variables ∷ []) }
    ensures variables_after { variables.new ≡ overwrite variables.old at (prefix_block (table blocks.now) j).variables }
    ensures value { result ≡ at + length (prefix_block (table blocks.now) j).variables }
{
    let count = write_variables(blocks, &mut variables[at..], j);
    write_words(prefix, j, quantifier, at, count);
    at + count
}

// Writes the words of prefix block j.
fn write_words(prefix: &mut [u32], j: usize, quantifier: Quantifier, first: usize, count: usize)
    requires { (prefix_width * j + prefix_width ≤ length prefix.old) × (first < 4294967296) × (count < 4294967296) }
    ensures { prefix.new ≡ overwrite prefix.old (prefix_width * j) (kind_of (node_quantifier quantifier) ∷ first ∷ count ∷ []) }
{
    let at = PREFIX_WIDTH * j;
    prefix[at] = quantifier.kind();
    prefix[at + 1] = first as u32;
    prefix[at + 2] = count as u32;
}

// Writes the variables of prefix block j: what leads it, then the copies of level j + 1. Returns how
// many there are.
fn write_variables(blocks: &Blocks, out: &mut [u32], j: usize) -> usize
    requires j_bound { j ≤ levels (table blocks.now) }
    requires j_in_bounds { length (prefix_block (table blocks.now) j).variables ≤ length out.old }
    ensures out_after { out.new ≡ overwrite out.old 0 (prefix_block (table blocks.now) j).variables }
    ensures value { result ≡ length (prefix_block (table blocks.now) j).variables }
{
    let led = leading_variables(blocks, out, j);
    let copied = level_variables(blocks, &mut out[led..], Part::Copies, j + 1);
    led + copied
}

// Writes what leads prefix block j: the root's names, or what the blocks of level j add.
fn leading_variables(blocks: &Blocks, out: &mut [u32], j: usize) -> usize
    requires j_bound { j ≤ levels (table blocks.now) }
    requires j_in_bounds { length (leading (table blocks.now) j) ≤ length out.old }
    ensures out_after { out.new ≡ overwrite out.old 0 (leading (table blocks.now) j) }
    ensures value { result ≡ length (leading (table blocks.now) j) }
{
    if j == 0 {
        let root = blocks.words.len() / formula::WIDTH - 1;
        return write_entries(blocks, out, blocks.names, root);
    }
    level_variables(blocks, out, Part::Own, j)
}

// Writes a part of each block of a level.
fn level_variables(blocks: &Blocks, out: &mut [u32], part: Part, level: usize) -> usize
    requires level_bound { level ≤ levels (table blocks.now) + 1 }
    requires level_in_bounds { length (flat_map (part_of (table blocks.now) part) (blocks_at (table blocks.now) level)) ≤ length out.old }
    ensures out_after { out.new ≡ overwrite out.old 0 (flat_map (part_of (table blocks.now) part) (blocks_at (table blocks.now) level)) }
    ensures value { result ≡ length (flat_map (part_of (table blocks.now) part) (blocks_at (table blocks.now) level)) }
{
    let mut at: usize = 0;
    let mut left = blocks.first_block(level);
    while let Some(i) = left {
        at += block_variables(blocks, &mut out[at..], part, i);
        left = blocks.next_block(i);
    }
    at
}

// Writes a part of inner block i.
fn block_variables(blocks: &Blocks, out: &mut [u32], part: Part, i: usize) -> usize
    requires inner_block { InnerBlock (table blocks.now) i }
    requires i_in_bounds { length (part_of (table blocks.now) part i) ≤ length out.old }
    ensures out_after { out.new ≡ overwrite out.old 0 (part_of (table blocks.now) part i) }
    ensures value { result ≡ length (part_of (table blocks.now) part i) }
{
    match part {
        Part::Own => {
            let count = write_entries(blocks, out, blocks.names, i);
            out[count] = blocks.definitions[i];
            count + 1
        }
        Part::Copies => write_entries(blocks, out, blocks.copies, i),
    }
}

// Writes the numbers of node i's entries, where the first of all entries has the number first, and
// returns how many there are. A node that is no block has no start: of it nothing is written,
// whatever is read.
fn write_entries(blocks: &Blocks, out: &mut [u32], first: u32, i: usize) -> usize
    requires i_bound { (i < (table blocks.now).size) × (first ≤ highest_first) }
    requires i_in_bounds { length (numbered (table blocks.now) first i) ≤ length out.old }
    ensures out_after { out.new ≡ overwrite out.old 0 (numbered (table blocks.now) first i) }
    ensures value { result ≡ length (numbered (table blocks.now) first i) }
{
    let count = count_at(blocks.words, i);
    write_numbers(out, first + blocks.starts[i] as u32, count);
    count
}

// How many variables node i binds.
fn count_at(words: &[u32], i: usize) -> usize
    requires { i < node_count words.now }
    ensures { result ≡ count_at words.now i }
{
    let node = formula::node_at(words, i);
    if formula::is_block_kind(node.kind) {
        return node.b as usize;
    }
    0
}

// Writes the count numbers from first on.
fn write_numbers(out: &mut [u32], first: u32, count: usize)
    requires { (first + count < 4294967296) × (count ≤ length out.old) }
    ensures { out.new ≡ overwrite out.old 0 (numbers first count) }
{
    for k in 0..count {
        out[k] = first + k as u32;
    }
}

// The blocks in front of the form that keeps them, written before the lifted prefix, whose ranges begin
// after their names.
#![tactic(auto)]

ghost use Rattle.std.specs.Prelude.{true, false, List, [], ◌∷◌, ◌≡◌, ℕ, ◌+◌, ◌*◌, ◌≤◌, ◌<◌, length, get_or};
ghost use Rattle.lists.specs.Choice.{pick};
ghost use Rattle.kept_prefix.specs.Blocks.{keep};
ghost use Rattle.lists.specs.Parts.{overwrite};
ghost use Rattle.formula.specs.Words.{node_count, table_of};
ghost use Rattle.formula.specs.Form.{prefix_width};
ghost use Rattle.refusals.specs.Verdict.{accepted};
ghost use Rattle.acceptance.specs.Verdict.{verdict};
ghost use Rattle.kept_prefix.specs.Kept.{stands};
ghost use Rattle.kept_prefix.specs.Promise.{AllBlocks};
ghost use Rattle.leading_blocks.specs.Flags.{Flags};
ghost use Rattle.leading_blocks.specs.Front.{Numbered};
ghost use Rattle.front_writer.specs.Written.{front_names, front_words, FrontFits, WrittenTo, moved, Movable};

use formula::WIDTH;
use prefix_writer::PREFIX_WIDTH;

// How many blocks and names are written.
#[derive(Clone, Copy)]
struct Place {
    blocks: usize,
    names: usize,
}

// Writes what stands in front of the `taken` outermost blocks to the starts of the two buffers: those of
// their names that stand at a variable node, and the blocks that keep one.
//
// The contract rules out a front with the innermost block first, one that turns a block's kind, and one
// with a name that stands nowhere.
pub fn write_front(
    words: &[u32],
    list: &[u32],
    standing: &[bool],
    taken: usize,
    prefix: &mut [u32],
    variables: &mut [u32],
)
    requires list_value { verdict words.now list.now ≡ accepted }
    requires flags { Flags (stands (table_of words.now list.now)) standing.now }
    requires taken_bound { (taken ≤ node_count words.now) × AllBlocks (table_of words.now list.now) taken }
    requires front_fits { FrontFits (table_of words.now list.now) taken prefix.old variables.old }
    ensures { WrittenTo (table_of words.now list.now) taken
        prefix.old variables.old prefix.new variables.new }
{
    let mut at = Place {
        blocks: 0,
        names: 0,
    };
    for k in 0..taken {
        at = write_block(words, list, standing, prefix, variables, at, k);
    }
}

// Writes what stands in front of node k from the root down, after the blocks and names that are written.
fn write_block(
    words: &[u32],
    list: &[u32],
    standing: &[bool],
    prefix: &mut [u32],
    variables: &mut [u32],
    at: Place,
    k: usize,
) -> Place
    requires list_value { verdict words.now list.now ≡ accepted }
    requires flags { Flags (stands (table_of words.now list.now)) standing.now }
    requires k_bound { (k < node_count words.now) × AllBlocks (table_of words.now list.now) (k + 1) }
    requires front_fits { FrontFits (table_of words.now list.now) (k + 1) prefix.old variables.old }
    requires blocks_value { (prefix_width * at.blocks ≡ length (front_words (table_of words.now list.now) k))
        × (at.names ≡ length (front_names (table_of words.now list.now) k)) }
    ensures blocks_value_2 { (prefix_width * result.blocks ≡ length (front_words (table_of words.now list.now) (k + 1)))
        × (result.names ≡ length (front_names (table_of words.now list.now) (k + 1))) }
    ensures by_index { (prefix₀ variables₀ : List ℕ)
        → FrontFits (table_of words.now list.now) (k + 1) prefix₀ variables₀
        → WrittenTo (table_of words.now list.now) k prefix₀ variables₀ prefix.old variables.old
        → WrittenTo (table_of words.now list.now) (k + 1) prefix₀ variables₀ prefix.new variables.new }
{
    let node = formula::node_at(words, words.len() / WIDTH - 1 - k);
    let first = node.a as usize;
    let end = first + node.b as usize;
    let names = at.names;
    let count = write_names(&list[first..end], standing, &mut variables[names..]);
    if count == 0 {
        return at;
    }
    write_words(prefix, at.blocks, node.kind, names, count);
    Place {
        blocks: at.blocks + 1,
        names: names + count,
    }
}

// Writes the names whose flag is set, and returns how many there are.
fn write_names(names: &[u32], standing: &[bool], out: &mut [u32]) -> usize
    requires numbered { Numbered names.now × (length standing.now ≡ 65536) }
    requires names_in_bounds { length (keep (λ x. get_or standing.now x false) names.now) ≤ length out.old }
    ensures out_after { out.new ≡ overwrite out.old 0 (keep (λ x. get_or standing.now x false) names.now) }
    ensures value { result ≡ length (keep (λ x. get_or standing.now x false) names.now) }
{
    let mut at: usize = 0;
    for &x in names {
        let flag = standing[x as usize];
        at = write_name(out, at, flag, x);
    }
    at
}

// Writes x at index `at` if its flag is set. The result is the index where the next name goes.
fn write_name(out: &mut [u32], at: usize, flag: bool, x: u32) -> usize
    requires { flag ≡ true → at < length out.old }
    ensures { (out.new ≡ overwrite out.old at (pick flag (x ∷ []) [])) × (result ≡ at + pick flag 1 0) }
{
    if !flag {
        return at;
    }
    out[at] = x;
    at + 1
}

// Moves the ranges of the first blocks of a prefix by so many entries.
//
// The contract rules out a move of the counts, and one that leaves the last block's range in place.
pub fn move_ranges(prefix: &mut [u32], blocks: usize, by: usize)
    requires { Movable blocks by prefix.old }
    ensures { prefix.new ≡ overwrite prefix.old 0 (moved blocks by prefix.old) }
{
    for j in 0..blocks {
        move_range(prefix, j, by);
    }
}

fn move_range(prefix: &mut [u32], j: usize, by: usize)
    requires prefix_width_in_bounds { prefix_width * j + prefix_width ≤ length prefix.old }
    requires by_bound { get_or prefix.old (prefix_width * j + 1) 0 + by < 4294967296 }
    ensures { prefix.new ≡ overwrite prefix.old (prefix_width * j)
        (get_or prefix.old (prefix_width * j) 0 ∷ (get_or prefix.old (prefix_width * j + 1) 0 + by)
        ∷ get_or prefix.old (prefix_width * j + 2) 0 ∷ []) }
{
    let at = PREFIX_WIDTH * j;
    let kind = prefix[at];
    let first = prefix[at + 1] as usize;
    let count = prefix[at + 2] as usize;
    write_words(prefix, j, kind, first + by, count);
}

// Writes the words of prefix block j.
fn write_words(prefix: &mut [u32], j: usize, kind: u32, first: usize, count: usize)
    requires { (prefix_width * j + prefix_width ≤ length prefix.old) × (first < 4294967296) × (count < 4294967296) }
    ensures { prefix.new ≡ overwrite prefix.old (prefix_width * j) (kind ∷ first ∷ count ∷ []) }
{
    let at = PREFIX_WIDTH * j;
    prefix[at] = kind;
    prefix[at + 1] = first as u32;
    prefix[at + 2] = count as u32;
}

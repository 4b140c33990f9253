// The nodes of an accepted table chained: the variable nodes and blocks by parent block, and the
// inner blocks by level. The pass that chains by parent block also counts the entries before each
// block's and finds the table's highest number.
#![tactic(auto)]

ghost use Rattle.std.specs.Prelude.{true, ◌≡◌, suc, ◌+◌, ◌<◌, ◌≤◌, max, length, get_or, set};
ghost use Rattle.lists.specs.Members.{maximum};
ghost use Rattle.formula.specs.Words.{node_count, range, node_at, table_of};
ghost use Rattle.refusals.specs.Verdict.{accepted};
ghost use Rattle.acceptance.specs.Limits.{limit};
ghost use Rattle.acceptance.specs.Verdict.{verdict};
ghost use Rattle.prenex_form.specs.Names.{highest_number, bound_count};
ghost use Rattle.arrays.specs.Held.{
  is_member,
  Parents,
  NodeLevels,
  LevelChains,
  MemberChains,
  Starts,
};
ghost use Rattle.chains.specs.Chaining.{Cleared, LevelsFrom, MembersFrom, ChainedFrom};

use formula::{NodeWords, VARIABLE};

// What the pass over the members has found of the nodes that are done: how many entries stand before
// theirs, and their highest number.
#[derive(Clone, Copy)]
pub struct Passed {
    pub start: usize,
    pub highest: u32,
}

// Chains the variable nodes and blocks by parent block, and writes how many entries stand before each
// block's. The result is the highest number of the table. One pass from the root down puts each node
// before those above it with its parent block.
pub fn chain_members(
    words: &[u32],
    list: &[u32],
    parents: &[u32],
    firsts: &mut [u16],
    nexts: &mut [u16],
    starts: &mut [u16],
    bound: usize,
) -> u32
    requires list_value { verdict words.now list.now ≡ accepted }
    requires parents_len { (length parents.now ≡ limit) × Parents (table_of words.now list.now) parents.now }
    requires bound_value { bound ≡ bound_count (table_of words.now list.now) }
    requires cleared { Cleared (suc limit) firsts.old nexts.old × (length starts.old ≡ limit) }
    ensures chains { MemberChains (table_of words.now list.now) firsts.new nexts.new }
    ensures starts { Starts (table_of words.now list.now) starts.new }
    ensures highest { (result ≡ highest_number (table_of words.now list.now)) × (result ≤ 65535) }
{
    let mut passed = Passed {
        start: bound,
        highest: 0,
    };
    for i in (0..words.len() / formula::WIDTH).rev() {
        let node = formula::node_at(words, i);
        if node.kind == VARIABLE {
            chain_member(words, list, parents, firsts, nexts, i);
            passed.highest = passed.highest.max(node.a);
        } else if formula::is_block_kind(node.kind) {
            chain_member(words, list, parents, firsts, nexts, i);
            count_block(list, starts, &mut passed, node, i);
        }
    }
    passed.highest
}

// Counts the entries of block i, and writes how many stand before them.
fn count_block(list: &[u32], starts: &mut [u16], passed: &mut Passed, node: NodeWords, i: usize)
    requires i_in_bounds { i < length starts.old }
    requires entries_counted { (node.b ≤ passed.old.start) × (passed.old.start ≤ limit) }
    requires entries_in_bounds { node.a + node.b ≤ length list.now }
    ensures starts_after { starts.new ≡ set starts.old i passed.new.start }
    ensures start_value { passed.new.start + node.b ≡ passed.old.start }
    ensures highest_value { passed.new.highest ≡ max passed.old.highest (maximum (range list.now node.a node.b)) }
{
    passed.start -= node.b as usize;
    starts[i] = passed.start as u16;
    let highest = highest_entry(list, node.a as usize, node.b as usize);
    passed.highest = passed.highest.max(highest);
}

// Node i, a variable node or a block, goes before those above it that have its parent block.
fn chain_member(
    words: &[u32],
    list: &[u32],
    parents: &[u32],
    firsts: &mut [u16],
    nexts: &mut [u16],
    i: usize,
)
    requires list_value { verdict words.now list.now ≡ accepted }
    requires i_bound { (i < node_count words.now) × (is_member (node_at words.now list.now i) ≡ true) }
    requires parents_len { (length parents.now ≡ limit) × (length firsts.old ≡ suc limit) × (length nexts.old ≡ limit) }
    requires parents { Parents (table_of words.now list.now) parents.now }
    requires members_from { MembersFrom (table_of words.now list.now) (i + 1) firsts.old nexts.old }
    ensures { MembersFrom (table_of words.now list.now) i firsts.new nexts.new }
{
    let block = parents[i] as usize;
    put_first(firsts, nexts, block, i);
}

// Chains the inner blocks by level. A pass from below the root, which is no inner block, down puts
// each block before those above it with its level.
pub fn chain_levels(
    words: &[u32],
    list: &[u32],
    levels: &[u16],
    firsts: &mut [u16],
    nexts: &mut [u16],
)
    requires list_value { verdict words.now list.now ≡ accepted }
    requires levels_len { (length levels.now ≡ limit) × NodeLevels (table_of words.now list.now) levels.now }
    requires cleared { Cleared limit firsts.old nexts.old }
    ensures { LevelChains (table_of words.now list.now) firsts.new nexts.new }
{
    for i in (0..words.len() / formula::WIDTH - 1).rev() {
        chain_level(words, list, levels, firsts, nexts, i);
    }
}

// The same of node i below the root, where the nodes above it are done.
fn chain_level(
    words: &[u32],
    list: &[u32],
    levels: &[u16],
    firsts: &mut [u16],
    nexts: &mut [u16],
    i: usize,
)
    requires list_value { verdict words.now list.now ≡ accepted }
    requires i_bound { i + 1 < node_count words.now }
    requires levels_len { (length levels.now ≡ limit) × (length firsts.old ≡ limit) × (length nexts.old ≡ limit) }
    requires node_levels { NodeLevels (table_of words.now list.now) levels.now }
    requires levels_from { LevelsFrom (table_of words.now list.now) (i + 1) firsts.old nexts.old }
    ensures { LevelsFrom (table_of words.now list.now) i firsts.new nexts.new }
{
    let node = formula::node_at(words, i);
    if !formula::is_block_kind(node.kind) {
        return;
    }
    let level = levels[i] as usize;
    put_first(firsts, nexts, level, i);
}

// Node i becomes the first with its key.
fn put_first(firsts: &mut [u16], nexts: &mut [u16], key: usize, i: usize)
    requires { (key < length firsts.old) × (i < length nexts.old) × (i < limit) }
    ensures firsts_after { firsts.new ≡ set firsts.old key (suc i) }
    ensures nexts_after { nexts.new ≡ set nexts.old i (get_or firsts.old key 0) }
{
    nexts[i] = firsts[key];
    firsts[key] = (i + 1) as u16;
}

// The highest of the count entries from first on, 0 if none.
fn highest_entry(list: &[u32], first: usize, count: usize) -> u32
    requires { first + count ≤ length list.now }
    ensures { result ≡ maximum (range list.now first count) }
{
    let mut highest = 0;
    for x in &list[first..first + count] {
        highest = highest.max(*x);
    }
    highest
}

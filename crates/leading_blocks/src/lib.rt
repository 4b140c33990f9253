// The blocks in front of a table: how many there are, and what of them stands in front of the form that
// keeps them.
#![tactic(auto)]

ghost use Rattle.std.specs.Prelude.{true, List, ◌≡◌, ℕ, ◌+◌, ◌<◌, length};
ghost use Rattle.lists.specs.Members.{distinct};
ghost use Rattle.formula.specs.Words.{node_count, table_of};
ghost use Rattle.refusals.specs.Verdict.{accepted};
ghost use Rattle.acceptance.specs.Verdict.{verdict};
ghost use Rattle.kept_prefix.specs.Leading.{leading_count};
ghost use Rattle.kept_prefix.specs.Kept.{stands};
ghost use Rattle.leading_blocks.specs.Flags.{Flags, none, one_of, stands_below};
ghost use Rattle.leading_blocks.specs.Front.{FrontTo, Taken, Numbered, Added, Stepped};

use formula::{VARIABLE, WIDTH};

// How many numbers have a flag.
pub const NUMBERS: usize = 65536;

// The blocks taken off and their names, and the blocks and names of these that stand in front of the
// form.
#[derive(Clone, Copy)]
pub struct Front {
    pub taken: usize,
    pub bound: usize,
    pub blocks: usize,
    pub names: usize,
}

// Sets the flag of each number that stands at a variable node.
pub fn flag_standing(words: &[u32], list: &[u32], standing: &mut [bool])
    requires list_value { verdict words.now list.now ≡ accepted }
    requires flags { Flags none standing.old }
    ensures { Flags (stands (table_of words.now list.now)) standing.new }
{
    for i in 0..words.len() / WIDTH {
        flag_node(words, list, standing, i);
    }
}

// The same of one node, where the nodes below it are flagged.
fn flag_node(words: &[u32], list: &[u32], standing: &mut [bool], i: usize)
    requires list_value { verdict words.now list.now ≡ accepted }
    requires i_bound { i < node_count words.now }
    requires flags { Flags (stands_below (table_of words.now list.now) i) standing.old }
    ensures { Flags (stands_below (table_of words.now list.now) (i + 1)) standing.new }
{
    let node = formula::node_at(words, i);
    if node.kind != VARIABLE {
        return;
    }
    let x = node.a as usize;
    standing[x] = true;
}

// Takes blocks off from the root down, as long as no name repeats.
//
// The contract rules out a count that goes on past a name that repeats, and one that counts names which
// stand at no variable node.
pub fn find_front(words: &[u32], list: &[u32], standing: &[bool]) -> Front
    requires list_value { verdict words.now list.now ≡ accepted }
    requires flags { Flags (stands (table_of words.now list.now)) standing.now }
    ensures { FrontTo (table_of words.now list.now)
        (leading_count (table_of words.now list.now)) result }
{
    let mut used = [false; NUMBERS];
    take_blocks(words, list, standing, &mut used)
}

// The same with flags for the names of the blocks taken off.
fn take_blocks(words: &[u32], list: &[u32], standing: &[bool], used: &mut [bool]) -> Front
    requires list_value { verdict words.now list.now ≡ accepted }
    requires flags { Flags (stands (table_of words.now list.now)) standing.now }
    requires flags_2 { Flags none used.old }
    ensures { FrontTo (table_of words.now list.now)
        (leading_count (table_of words.now list.now)) result }
{
    let mut front = Front {
        taken: 0,
        bound: 0,
        blocks: 0,
        names: 0,
    };
    for k in 0..words.len() / WIDTH {
        let Some(more) = take_block(words, list, standing, used, front, k) else {
            return front;
        };
        front = more;
    }
    front
}

// What is taken off with node k from the root down, if that is a block and no name of it repeats.
fn take_block(
    words: &[u32],
    list: &[u32],
    standing: &[bool],
    used: &mut [bool],
    front: Front,
    k: usize,
) -> Option<Front>
    requires list_value { verdict words.now list.now ≡ accepted }
    requires flags { Flags (stands (table_of words.now list.now)) standing.now }
    requires k_bound { k < node_count words.now }
    requires taken { Taken (table_of words.now list.now) k front used.old }
    ensures { Stepped (table_of words.now list.now) k used.new result }
{
    let node = formula::node_at(words, words.len() / WIDTH - 1 - k);
    if !formula::is_block_kind(node.kind) {
        return None;
    }
    let first = node.a as usize;
    let count = node.b as usize;
    let end = first + count;
    let kept = use_names(&list[first..end], standing, used)?;
    Some(Front {
        taken: front.taken + 1,
        bound: front.bound + count,
        blocks: front.blocks + (0 < kept) as usize,
        names: front.names + kept,
    })
}

// Sets the flags of names, and counts those that stand at a variable node. None if one has its flag already.
fn use_names(names: &[u32], standing: &[bool], used: &mut [bool]) -> Option<usize>
    requires numbered { Numbered names.now }
    requires standing_len { (length standing.now ≡ 65536) × (length used.old ≡ 65536) }
    ensures { (before : List ℕ) → Flags (one_of before) used.old → distinct before ≡ true
        → Added before names.now standing.now used.new result }
{
    let mut standing_names: usize = 0;
    for name in names {
        let x = *name as usize;
        if used[x] {
            return None;
        }
        used[x] = true;
        standing_names += standing[x] as usize;
    }
    Some(standing_names)
}

// Finds the entry that binds each variable node's number (document 01, "Names").
//
// A walk through the table, scope by scope from the outermost in: it enters each block, comes by the
// variable nodes and blocks whose parent block it is, and leaves it. The entries of the block and of
// those above it are chained by their numbers, the nearest first: entering a block puts its entries
// before the others, leaving it takes them away. So the entry that binds a variable node's number is
// the head of the number's chain, and a number that no block above covers has none: nothing climbs.
//
// The walk counts its steps: one for each node that it comes by, and one for each entry that it puts or
// takes away. It comes by a variable node once and by a block twice, so the steps are linear in the nodes
// and bound variables of the table.
#![tactic(auto)]

ghost use Rattle.std.specs.Prelude.{true, ◌≡◌, suc, ◌+◌, ◌*◌, ◌≤◌, ◌<◌, length, get_or, set};
ghost use Rattle.formula.specs.Node.{is_block};
ghost use Rattle.formula.specs.Words.{node_count, node_at, table_of};
ghost use Rattle.formula.specs.Tree.{count, bound_below};
ghost use Rattle.refusals.specs.Verdict.{accepted};
ghost use Rattle.acceptance.specs.Limits.{limit};
ghost use Rattle.acceptance.specs.Verdict.{verdict};
ghost use Rattle.prenex_form.specs.Names.{highest_number, bound_count};
ghost use Rattle.arrays.specs.Held.{enclosing, Bindings};
ghost use Rattle.binders.specs.Scope.{Open};
ghost use Rattle.binders.specs.Walk.{Scopes, Walking, Unfinished, steps_left, walk_steps};

use formula::VARIABLE;

// How many numbers an array has heads for: those of most tables, or all.
const FEW_NUMBERS: usize = 4096;

const NUMBERS: usize = 65536;

// One slot for each entry, and slot 0 for none.
const ENTRIES: usize = 4097;

// An accepted table with its scopes: each node's parent block, the variable nodes and blocks chained by
// it, each the first of its scope or the next after another, and where each block's entries start.
#[derive(Clone, Copy)]
pub struct TableScopes<'a> {
    pub words: &'a [u32],
    pub list: &'a [u32],
    pub parents: &'a [u32],
    pub firsts: &'a [u16],
    pub nexts: &'a [u16],
    pub starts: &'a [u16],
    ghost held: { Scopes words.now list.now parents.now firsts.now nexts.now starts.now },
}

// Writes, for each variable node, the entry that binds its number and one more; 0 if it is free.
// `highest` is the table's highest number: where it is low, fewer heads are cleared. It returns how many
// steps the walk took.
pub fn find_binders(scopes: &TableScopes, highest: u32, bindings: &mut [u16]) -> usize
    requires highest_value { highest ≡ highest_number (table_of scopes.now.words.now scopes.now.list.now) }
    requires bindings_len { length bindings.old ≡ limit }
    ensures bindings { Bindings (table_of scopes.now.words.now scopes.now.list.now) bindings.new }
    ensures steps { result ≡ walk_steps (table_of scopes.now.words.now scopes.now.list.now) }
    ensures linear { result ≤ 2 * (node_count scopes.now.words.now + bound_count (table_of scopes.now.words.now scopes.now.list.now)) }
{
    let mut entry_nexts = [0u16; ENTRIES];
    if (highest as usize) < FEW_NUMBERS {
        let mut heads = [0u16; FEW_NUMBERS];
        return walk(scopes, bindings, &mut heads, &mut entry_nexts);
    }
    let mut heads = [0u16; NUMBERS];
    walk(scopes, bindings, &mut heads, &mut entry_nexts)
}

// Where the walk stands: in the scope of a block, or of none at the table's size; and at one more than
// a variable node or block right in it, or at 0 past the last. And how many steps it has taken.
#[derive(Clone, Copy)]
pub struct Place {
    pub scope: usize,
    pub link: u16,
    pub steps: usize,
}

fn walk(
    scopes: &TableScopes,
    bindings: &mut [u16],
    heads: &mut [u16],
    entry_nexts: &mut [u16],
) -> usize
    requires bindings_len { length bindings.old ≡ limit }
    requires fact { Open (table_of scopes.now.words.now scopes.now.list.now) (node_count scopes.now.words.now) 0 heads.old entry_nexts.old }
    ensures bindings { Bindings (table_of scopes.now.words.now scopes.now.list.now) bindings.new }
    ensures steps { result ≡ walk_steps (table_of scopes.now.words.now scopes.now.list.now) }
    ensures linear { result ≤ 2 * (node_count scopes.now.words.now + bound_count (table_of scopes.now.words.now scopes.now.list.now)) }
{
    let size = scopes.words.len() / formula::WIDTH;
    let mut place = Place {
        scope: size,
        link: scopes.firsts[size],
        steps: 0,
    };
    while place.link != 0 || place.scope < size {
        place = step(scopes, bindings, heads, entry_nexts, place);
    }
    place.steps
}

// Comes by one node: past the last node of a scope it leaves the block; it finds a variable node's entry
// and goes on to the next, or enters a block. The steps that it takes are no longer left to take.
fn step(
    scopes: &TableScopes,
    bindings: &mut [u16],
    heads: &mut [u16],
    entry_nexts: &mut [u16],
    place: Place,
) -> Place
    requires walking { Walking scopes.now.words.now scopes.now.list.now bindings.old heads.old entry_nexts.old place }
    requires unfinished { Unfinished scopes.now.words.now scopes.now.list.now place }
    requires place_value { place.steps + steps_left (table_of scopes.now.words.now scopes.now.list.now) place ≡ walk_steps (table_of scopes.now.words.now scopes.now.list.now) }
    ensures walking_2 { Walking scopes.now.words.now scopes.now.list.now bindings.new heads.new entry_nexts.new result }
    ensures result_value { result.steps + steps_left (table_of scopes.now.words.now scopes.now.list.now) result ≡ place.steps + steps_left (table_of scopes.now.words.now scopes.now.list.now) place }
    ensures steps_lt_steps { place.steps < result.steps }
{
    if place.link == 0 {
        let block = place.scope;
        let taken = leave(scopes, heads, entry_nexts, block);
        return Place {
            scope: scopes.parents[block] as usize,
            link: scopes.nexts[block],
            steps: place.steps + 1 + taken,
        };
    }
    let i = place.link as usize - 1;
    let node = formula::node_at(scopes.words, i);
    if node.kind == VARIABLE {
        bindings[i] = heads[node.a as usize];
        return Place {
            scope: place.scope,
            link: scopes.nexts[i],
            steps: place.steps + 1,
        };
    }
    let put = enter(scopes, heads, entry_nexts, i);
    Place {
        scope: i,
        link: scopes.firsts[i],
        steps: place.steps + 1 + put,
    }
}

// Enters block i: puts its entries before those of the scope around it. It goes from the last entry
// down, so that a chain ascends within a block too. It returns how many it has put.
fn enter(scopes: &TableScopes, heads: &mut [u16], entry_nexts: &mut [u16], i: usize) -> usize
    requires i_bound { (i < node_count scopes.now.words.now) × (is_block (node_at scopes.now.words.now scopes.now.list.now i) ≡ true) }
    requires fact { Open (table_of scopes.now.words.now scopes.now.list.now) (enclosing (table_of scopes.now.words.now scopes.now.list.now) i) 0 heads.old entry_nexts.old }
    ensures fact_2 { Open (table_of scopes.now.words.now scopes.now.list.now) i 0 heads.new entry_nexts.new }
    ensures value { result ≡ count (table_of scopes.now.words.now scopes.now.list.now) i }
{
    let node = formula::node_at(scopes.words, i);
    let start = scopes.starts[i] as usize;
    let first = node.a as usize;
    let count = node.b as usize;
    for k in (0..count).rev() {
        put_entry(heads, entry_nexts, scopes.list[first + k], start + k);
    }
    count
}

// Puts entry e, whose number is x, at the head of its chain.
fn put_entry(heads: &mut [u16], entry_nexts: &mut [u16], x: u32, e: usize)
    requires { (x < length heads.old) × (suc e < length entry_nexts.old) × (e < limit) }
    ensures heads_after { heads.new ≡ set heads.old x (suc e) }
    ensures entry_nexts_after { entry_nexts.new ≡ set entry_nexts.old (suc e) (get_or heads.old x 0) }
{
    let entry = (e + 1) as u16;
    let head = heads[x as usize];
    entry_nexts[e + 1] = head;
    heads[x as usize] = entry;
}

// Leaves block i: takes its entries from the heads of their chains, the first of them first. It returns
// how many it has taken away.
fn leave(scopes: &TableScopes, heads: &mut [u16], entry_nexts: &[u16], i: usize) -> usize
    requires i_bound { (i < node_count scopes.now.words.now) × (is_block (node_at scopes.now.words.now scopes.now.list.now i) ≡ true) }
    requires fact { Open (table_of scopes.now.words.now scopes.now.list.now) i 0 heads.old entry_nexts.now }
    ensures fact_2 { Open (table_of scopes.now.words.now scopes.now.list.now) (enclosing (table_of scopes.now.words.now scopes.now.list.now) i) 0 heads.new entry_nexts.now }
    ensures value { result ≡ count (table_of scopes.now.words.now scopes.now.list.now) i }
{
    let node = formula::node_at(scopes.words, i);
    let start = scopes.starts[i] as usize;
    let first = node.a as usize;
    let count = node.b as usize;
    for k in 0..count {
        heads[scopes.list[first + k] as usize] = entry_nexts[start + k + 1];
    }
    count
}

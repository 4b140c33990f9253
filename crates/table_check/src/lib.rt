// The table checker: which formula tables are accepted, and the exact refusal of every other.
#![tactic(auto)]

ghost use Rattle.std.specs.Prelude.{true, ◌&&◌, ◌≡◌, ℕ, ◌+◌, ◌≤◌, ◌<◌, eqb, get_or};
ghost use Rattle.lists.specs.Choice.{pick};
ghost use Rattle.lists.specs.Members.{times};
ghost use Rattle.lists.specs.Parts.{sum};
ghost use Rattle.formula.specs.Words.{node_count, is_block_kind};
ghost use Rattle.acceptance.specs.Limits.{limit, table_limits, tables_with};
ghost use Rattle.acceptance.specs.Verdict.{
  count_at,
  node_fault,
  verdict_within,
  verdict,
  stored_verdict,
};
ghost use Rattle.block_check.specs.Fault.{passable};
ghost use Rattle.range_check.specs.Chains.{Ready};
ghost use Rattle.tree_check.specs.Named.{named_by, Counted, Room};
ghost use Rattle.table_check.specs.Steps.{
  words_fault,
  block_node_fault,
  refuses,
  nodes_verdict,
};

use acceptance::LIMIT;
use formula::NodeWords;
use range_check::EntryChains;
use refusals::{
    ACCEPTED, BAD_VARIABLE, EMPTY_BLOCK, FORWARD_REFERENCE, MALFORMED_NODE, PARTIAL_NODE,
    TOO_LARGE, Verdict,
};

// Refuses a table by document 01's refusals 1 to 8, in that order, and by 16, which comes after 5; or
// accepts it. Refusal 8 names two users.
//
// The contract rules out a checker that refuses everything, one that accepts whatever has no refusal
// from 3 to 7, tree or not, one that tests for 16 once all nodes have passed, by that of block_check one
// that tests for it before 5 or before 4, and by that of tree_check one that names the two highest users.
pub fn check(words: &[u32], list: &[u32]) -> Verdict
    ensures verdict { result ≡ verdict words.now list.now }
{
    check_with(words, list, false)
}

// The same of a stored table, whose blocks may be empty: 16 is no refusal of it.
//
// The contract rules out a checker that refuses an empty block, and, as that of `check` does, one that
// refuses everything and one that accepts what is no tree.
pub fn check_stored(words: &[u32], list: &[u32]) -> Verdict
    ensures verdict { result ≡ stored_verdict words.now list.now }
{
    check_with(words, list, true)
}

// The same of a table whose blocks may be empty or not.
fn check_with(words: &[u32], list: &[u32], empty: bool) -> Verdict
    ensures { result ≡ verdict_within (tables_with empty) words.now list.now }
{
    if acceptance::partial_node(words) {
        return refusals::refusal(PARTIAL_NODE, 0);
    }
    if (LIMIT < words.len() / formula::WIDTH) | (LIMIT < list.len()) {
        return refusals::refusal(TOO_LARGE, 0);
    }
    let mut named = [0u16; LIMIT];
    let nodes = check_nodes(words, list, &mut named, empty);
    if nodes.number != ACCEPTED {
        return nodes;
    }
    tree_check::check_tree(words, &named)
}

// Refusals 3 to 7 and 16. Where none applies, `named` holds how often each node is named.
fn check_nodes(words: &[u32], list: &[u32], named: &mut [u16], empty: bool) -> Verdict
    requires words_bound { node_count words.now ≤ limit }
    requires counted { Counted words.now named.old 0 }
    ensures value { result ≡ nodes_verdict (tables_with empty) words.now list.now }
    ensures counted_2 { result.number ≡ 0 → Counted words.now named.new (node_count words.now) }
{
    let mut chains = EntryChains::new();
    for i in 0..words.len() / formula::WIDTH {
        let fault = node_fault(words, list, &mut chains, named, i);
        if refuses(fault, empty) {
            return refusals::refusal(fault, i as u32);
        }
    }
    refusals::accepted()
}

// Whether a node's fault refuses a table whose blocks may be empty or not.
fn refuses(fault: u32, empty: bool) -> bool
    ensures { result ≡ refuses empty fault }
{
    (fault != ACCEPTED) & !(empty & (fault == EMPTY_BLOCK))
}

// The first of refusals 3 to 7 and 16 that applies to node i. The entries that the blocks below it cover are chained, and
// `named` holds how often the nodes below it name each node. Past 16 the pass may go on: an empty block binds nothing, so
// neither 6 nor 7 applies to it. The most frequent kinds are tested first.
fn node_fault(
    words: &[u32],
    list: &[u32],
    chains: &mut EntryChains,
    named: &mut [u16],
    i: usize,
) -> u32
    requires i_bound { (i < node_count words.now) × (node_count words.now ≤ limit) }
    requires entries_value { (chains.old.entries ≡ sum (count_at words.now) i) × (chains.old.entries ≤ limit) }
    requires ready { Ready chains.old }
    requires counted { Counted words.now named.old i }
    ensures value { result ≡ node_fault table_limits words.now list.now i }
    ensures entries_after { passable result ≡ true → chains.new.entries ≡ chains.old.entries + count_at words.now i }
    ensures ready_2 { passable result ≡ true → Ready chains.new }
    ensures counted_2 { passable result ≡ true → Counted words.now named.new (i + 1) }
{
    let node = formula::node_at(words, i);
    if node.kind == formula::VARIABLE {
        return leaf_fault(node, range_check::is_number(node.a));
    }
    if node.kind == formula::OPERATOR {
        return operator_fault(i, node, named);
    }
    if formula::is_block_kind(node.kind) {
        return block_node_fault(list, chains, named, i, node);
    }
    if node.kind == formula::NEGATION {
        return negation_fault(i, node, named);
    }
    if node.kind == formula::CONSTANT {
        return leaf_fault(node, node.a <= 1);
    }
    MALFORMED_NODE
}

// Refusal 3 of a variable or a constant, whose number or value is in its range or is not: the other fields
// are unused.
fn leaf_fault(node: NodeWords, in_range: bool) -> u32
    ensures { result ≡ pick (in_range && eqb node.b 0 && eqb node.c 0) 0 3 }
{
    if in_range & (node.b == 0) & (node.c == 0) {
        ACCEPTED
    } else {
        MALFORMED_NODE
    }
}

fn operator_fault(i: usize, node: NodeWords, named: &mut [u16]) -> u32
    requires kind_value { node.kind ≡ 4 }
    requires room { Room named.old i }
    ensures value { result ≡ words_fault i node }
    ensures x_after { result ≡ 0 → (x : ℕ) → get_or named.new x 0 ≡ get_or named.old x 0 + times x (named_by node) }
{
    if 15 < node.a {
        return MALFORMED_NODE;
    }
    if (i <= node.b as usize) | (i <= node.c as usize) {
        return FORWARD_REFERENCE;
    }
    tree_check::count_name(node.b, named);
    tree_check::count_name(node.c, named);
    ACCEPTED
}

fn negation_fault(i: usize, node: NodeWords, named: &mut [u16]) -> u32
    requires kind_value { node.kind ≡ 3 }
    requires room { Room named.old i }
    ensures value { result ≡ words_fault i node }
    ensures x_after { result ≡ 0 → (x : ℕ) → get_or named.new x 0 ≡ get_or named.old x 0 + times x (named_by node) }
{
    if !((node.b == 0) & (node.c == 0)) {
        return MALFORMED_NODE;
    }
    if i <= node.a as usize {
        return FORWARD_REFERENCE;
    }
    tree_check::count_name(node.a, named);
    ACCEPTED
}

// Refusals 4 to 7 and 16 of a block at node i, which has no refusal 3. No entry of a range is read that the list does not
// have, and none of a range that brings the counts over the limit: so all ranges together cost no more than the limit.
fn block_node_fault(
    list: &[u32],
    chains: &mut EntryChains,
    named: &mut [u16],
    i: usize,
    node: NodeWords,
) -> u32
    requires kind_value { is_block_kind node.kind ≡ true }
    requires entries_le_limit { chains.old.entries ≤ limit }
    requires ready { Ready chains.old }
    requires room { Room named.old i }
    ensures value { result ≡ block_node_fault list.now i chains.old.entries node }
    ensures entries_after { passable result ≡ true → chains.new.entries ≡ chains.old.entries + node.b }
    ensures ready_2 { passable result ≡ true → Ready chains.new }
    ensures x_after { passable result ≡ true → (x : ℕ) → get_or named.new x 0 ≡ get_or named.old x 0 + times x (named_by node) }
{
    let fault = block_check::block_fault(list.len(), i, chains.entries, node, named);
    if fault != ACCEPTED {
        return fault;
    }
    if !chains.good_range(list, node.a as usize, node.b as usize) {
        return BAD_VARIABLE;
    }
    ACCEPTED
}

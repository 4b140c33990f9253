// Two passes over a matrix: which names are free, and then the word of the variable that stands for each
// node, with the number of clauses.
#![tactic(auto)]

ghost use Rattle.std.specs.Prelude.{List, [], ◌≡◌, ℕ, suc, ◌+◌, ◌*◌, ◌<◌, ◌≤◌, length, get_or};
ghost use Rattle.formula.specs.Words.{node_count, table_of};
ghost use Rattle.formula.specs.FreeVariables.{highest_variable};
ghost use Rattle.acceptance.specs.Accepted.{AcceptedWithin};
ghost use Rattle.form_check.specs.Verdict.{form_limits};
ghost use Rattle.qdimacs_numbers.specs.Numbering.{FlaggedBelow, NumberedBelow, clause_count};

use formula::NodeWords;

// Gives each name at a variable node, also below an operand that an operator ignores, the flag 2 if it has
// none. The result is the highest name that got one, 0 if none did: no Option, since its user takes the maximum of it
// and another name.
//
// The contract rules out a pass that leaves out the name at the last node, and one that flags a name at
// every node.
pub fn flag_free(nodes: &[u32], names: &mut [u8]) -> u32
    requires accepted_within { AcceptedWithin form_limits nodes.now [] }
    requires names_len { length names.old ≡ 77824 }
    ensures { FlaggedBelow (table_of nodes.now []) names.old
        (node_count nodes.now) names.new result }
{
    let n = nodes.len() / formula::WIDTH;
    let mut highest: u32 = 0;
    for k in 0..n {
        highest = flag_node(nodes, names, k, highest);
    }
    highest
}

// The same of one node.
fn flag_node(nodes: &[u32], names: &mut [u8], i: usize, highest: u32) -> u32
    requires accepted_within { AcceptedWithin form_limits nodes.now [] }
    requires i_bound { (i < node_count nodes.now) × (length names.old ≡ 77824) }
    ensures { (before : List ℕ) → FlaggedBelow (table_of nodes.now []) before i names.old highest
        → FlaggedBelow (table_of nodes.now []) before (suc i) names.new result }
{
    let node = formula::node_at(nodes, i);
    if node.kind != formula::VARIABLE {
        return highest;
    }
    name_flags::flag_name(names, node.a, highest)
}

// The number of the next gate, and of the clauses so far.
#[derive(Clone, Copy)]
pub struct Numbering {
    pub next: u32,
    pub clauses: u32,
}

// Fills in the word of each node's variable, gates in node order from `first` on. The result is the number after the
// last gate, and the number of all clauses.
//
// The contract rules out a numbering in which a root that is a variable has no gate, a count without the
// root's own clause, and one that counts clauses which are dropped.
pub fn number_nodes(nodes: &[u32], first: u32, words: &mut [u64]) -> Numbering
    requires accepted_within { AcceptedWithin form_limits nodes.now [] }
    requires nodes_bound { (highest_variable (table_of nodes.now []) < first) × (first ≤ 77824) }
    requires words_len { length words.old ≡ 40960 }
    ensures numbered_below { NumberedBelow (table_of nodes.now []) first
        (node_count nodes.now) words.new result }
    ensures clauses_bound { result.clauses ≤ 163841 }
{
    let n = nodes.len() / formula::WIDTH;
    let mut numbering = Numbering {
        next: first,
        clauses: 1,
    };
    for i in 0..n {
        numbering = number_node(nodes, words, i, numbering);
    }
    numbering
}

// The same of one node.
fn number_node(nodes: &[u32], words: &mut [u64], i: usize, before: Numbering) -> Numbering
    requires accepted_within { AcceptedWithin form_limits nodes.now [] }
    requires i_bound { (i < node_count nodes.now) × (length words.old ≡ 40960) }
    requires next_bound { (before.next ≤ 77824 + i) × (before.clauses ≤ suc (4 * i)) }
    ensures by_index { (first : ℕ) → highest_variable (table_of nodes.now []) < first
        → NumberedBelow (table_of nodes.now []) first i words.old before
        → NumberedBelow (table_of nodes.now []) first (suc i) words.new result }
    ensures next_bound_2 { (result.next ≤ 77824 + suc i) × (result.clauses ≤ suc (4 * suc i)) }
{
    let node = formula::node_at(nodes, i);
    let last = nodes.len() / formula::WIDTH - 1;
    if (node.kind == formula::VARIABLE) & (i < last) {
        words[i] = qdimacs_words::numeral_word(node.a);
        return before;
    }
    words[i] = qdimacs_words::numeral_word(before.next);
    let clauses = clause_count(node, words);
    Numbering {
        next: before.next + 1,
        clauses: before.clauses + clauses,
    }
}

// How many clauses the gate of a node has: one for each row of its meaning that is not dropped. If the
// operands of an operator are one variable, two rows are.
fn clause_count(node: NodeWords, words: &[u64]) -> u32
    requires { node.kind ≡ 4 → (node.b < length words.now) × (node.c < length words.now) }
    ensures { result ≡ clause_count node (get_or words.now node.b 0) (get_or words.now node.c 0) }
{
    if node.kind == formula::CONSTANT {
        return 1;
    }
    if node.kind != formula::OPERATOR {
        return 2;
    }
    let left = node.b as usize;
    let right = node.c as usize;
    if words[left] == words[right] {
        return 2; // two rows are dropped
    }
    4
}

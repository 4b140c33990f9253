// The matrix half of the form checker: faults 1, 3, 4 and 8 of a table without blocks, with more nodes and
// higher names than a formula table may have.
#![tactic(auto)]

ghost use Rattle.std.specs.Prelude.{true, false, not, [], ◌∷◌, ◌≡◌, ℕ, ◌+◌, ◌<◌, ◌≤◌, min, eqb, length, MatchOption, MatchResult};
ghost use Rattle.lists.specs.Search.{lowest};
ghost use Rattle.lists.specs.Members.{times};
ghost use Rattle.formula.specs.Words.{node_count};
ghost use Rattle.refusals.specs.Verdict.{accepted};
ghost use Rattle.acceptance.specs.Verdict.{is_number_to, node_fault, verdict_within};
ghost use Rattle.tree_check.specs.Named.{named_by};
ghost use Rattle.matrix_check.specs.Steps.{highest_name, node_limits, sound_node, Tally, Tallied};

use formula::NodeWords;

// The most nodes of a matrix.
pub const NODES: usize = 40960;

// The highest name.
pub const HIGHEST_NAME: u32 = 77823;

// Whether a matrix passes, by the table checker's own tests within a form's limits, or the node that they
// refuse it at.
//
// The contract rules out a checker that takes the name 77,824, and one that lets a node be named twice.
pub fn check(nodes: &[u32]) -> Result<(), usize>
    ensures { MatchResult result (λ _. verdict_within node_limits nodes.now [] ≡ accepted)
        (λ i. (eqb (verdict_within node_limits nodes.now []).number 0 ≡ false)
        × (i ≡ (verdict_within node_limits nodes.now []).position)) }
{
    let n = nodes.len() / formula::WIDTH;
    if acceptance::partial_node(nodes) | (NODES < n) {
        return Err(0);
    }
    let mut named = [0u8; NODES];
    if let Some(i) = first_unsound(nodes, &mut named) {
        return Err(i);
    }
    match tree_check::lowest_other_than(&named[..n - 1], 1) {
        Some(j) => Err(j),
        None => Ok(()),
    }
}

// The lowest node that refusal 3 or 4 applies to, if there is one. Where there is none, `named` holds how
// often each node is named.
fn first_unsound(nodes: &[u32], named: &mut [u8]) -> Option<usize>
    requires nodes_bound { node_count nodes.now ≤ node_limits.nodes }
    requires tallied { Tallied nodes.now named.old 0 }
    ensures { MatchOption result
        (((i : ℕ) → i < node_count nodes.now → eqb (node_fault node_limits nodes.now [] i) 0 ≡ true)
        × Tallied nodes.now named.new (node_count nodes.now))
        (λ i. (i < node_count nodes.now)
        × (i ≡ lowest (λ i. not (eqb (node_fault node_limits nodes.now [] i) 0)) (node_count nodes.now))) }
{
    for i in 0..nodes.len() / formula::WIDTH {
        if !take_node(nodes, named, i) {
            return Some(i);
        }
    }
    None
}

// Whether neither refusal applies to node i. Then the nodes that it names are counted.
fn take_node(nodes: &[u32], named: &mut [u8], i: usize) -> bool
    requires i_bound { (i < node_count nodes.now) × (node_count nodes.now ≤ node_limits.nodes) }
    requires tallied { Tallied nodes.now named.old i }
    ensures value { result ≡ eqb (node_fault node_limits nodes.now [] i) 0 }
    ensures tallied_2 { result ≡ true → Tallied nodes.now named.new (i + 1) }
{
    let node = formula::node_at(nodes, i);
    if node.kind == formula::OPERATOR {
        return take_operator(node, i, named);
    }
    if node.kind == formula::NEGATION {
        return take_negation(node, i, named);
    }
    sound_leaf(node)
}

fn take_operator(node: NodeWords, i: usize, named: &mut [u8]) -> bool
    requires kind_value { node.kind ≡ 4 }
    requires i_in_bounds { i ≤ length named.old }
    ensures value { result ≡ sound_node i node }
    ensures tally { result ≡ true → (f : ℕ → ℕ) → Tally named.old f
        → Tally named.new (λ x. f x + times x (named_by node)) }
{
    let left = node.b as usize;
    let right = node.c as usize;
    if !((node.a <= 15) & !((i <= left) | (i <= right))) {
        return false;
    }
    count_name(left, named);
    count_name(right, named);
    true
}

fn take_negation(node: NodeWords, i: usize, named: &mut [u8]) -> bool
    requires kind_value { node.kind ≡ 3 }
    requires i_in_bounds { i ≤ length named.old }
    ensures value { result ≡ sound_node i node }
    ensures tally { result ≡ true → (f : ℕ → ℕ) → Tally named.old f
        → Tally named.new (λ x. f x + times x (named_by node)) }
{
    let operand = node.a as usize;
    if !((node.b == 0) & (node.c == 0) & !(i <= operand)) {
        return false;
    }
    count_name(operand, named);
    true
}

// A node that is neither an operator nor a not node names none. (Beside table_check's test of leaves: that
// one answers a refusal's number and knows lower names, so the two would share two comparisons alone, and a
// common function would take the rest as parameters.)
fn sound_leaf(node: NodeWords) -> bool
    requires { (eqb node.kind 3 ≡ false) × (eqb node.kind 4 ≡ false) }
    ensures { (i : ℕ) → result ≡ sound_node i node }
{
    if node.kind == formula::VARIABLE {
        return is_name(node.a) & (node.b == 0) & (node.c == 0);
    }
    (node.kind == formula::CONSTANT) & (node.a <= 1) & (node.b == 0) & (node.c == 0)
}

// Whether x may be a name.
pub fn is_name(x: u32) -> bool
    ensures { result ≡ is_number_to highest_name x }
{
    (1 <= x) & (x <= HIGHEST_NAME)
}

// Node x is named once more.
fn count_name(x: usize, named: &mut [u8])
    requires { x < length named.old }
    ensures { (f : ℕ → ℕ) → Tally named.old f → Tally named.new (λ y. f y + times y (x ∷ [])) }
{
    named[x] = one_more(named[x]);
}

// One more than once is twice, however often.
fn one_more(count: u8) -> u8
    ensures { (k : ℕ) → count ≡ min 2 k → result ≡ min 2 (k + 1) }
{
    if count < 2 { count + 1 } else { count }
}

// Writes what one token of a gate line adds to the formula table of a QCIR file: the nodes of an input, of
// a gate without inputs and of a quantified gate's block, and the list entry of a bound variable.
#![tactic(auto)]

ghost use Rattle.std.specs.Prelude.{◌≡◌, ◌+◌, ◌≤◌, length, get_or, set};
ghost use Rattle.lists.specs.Choice.{pick};
ghost use Rattle.lists.specs.Parts.{overwrite};
ghost use Rattle.acceptance.specs.Limits.{limit};
ghost use Rattle.qcir_tokens.specs.Tokens.{is_last};
ghost use Rattle.qcir_tokens.specs.Held.{number_count};
ghost use Rattle.qcir_nodes.specs.Nodes.{
  Room,
  Wrote,
  add_node,
  add_name,
  add_minus,
  add_literal,
  join_table,
  add_join,
  add_input,
  empty_constant,
  add_operand,
  gate_block_kind,
  add_block,
  add_use,
  add_token,
  token_entries,
};

use formula::{
    EXISTS_BLOCK, FOR_ALL_BLOCK, NodeWords, block_node, constant_node, negation_node,
    operator_node, put_node, variable_node,
};
use qcir_tokens::{
    AND_GATE, EMPTY, EXISTS_GATE, OR_GATE, is_bound, is_definition, is_last, is_minus,
};

// The truth tables of the operators that are written.
const AND: u32 = 8;

const OR: u32 = 14;

const XOR: u32 = 6;

// How far the writing has come, and the gate line that is being written.
#[derive(Clone, Copy)]
pub struct Progress {
    // the index of the next node, and of the next list entry
    pub next: u32,
    pub listed: u32,
    // the node that stands for what was stored last
    pub node: u32,
    // the role of the gate's definition, and the gate's number
    pub kind: u8,
    pub gate: u16,
    // the node over the gate's inputs so far, if there are any
    pub inputs: Option<u32>,
    // the first entry of the gate's variables
    pub first: u32,
}

// Writes one node.
pub fn write_node(words: &mut [u32], p: Progress, node: NodeWords) -> Progress
    requires { Room words.old (add_node p node) }
    ensures { Wrote words.old p (add_node p node) words.new result }
{
    put_node(words, p.next as usize, node);
    Progress {
        next: p.next + 1,
        node: p.next,
        ..p
    }
}

// Writes a name's variable node, unless the name is a gate's, whose node is then gate - 1: `gate` is one more than the node, or
// 0, as the array holds it, in which an `Option` would take twice the room.
fn write_name(words: &mut [u32], p: Progress, gate: u32, x: u32) -> Progress
    requires { Room words.old (add_name p gate x) }
    ensures { Wrote words.old p (add_name p gate x) words.new result }
{
    match gate.checked_sub(1) {
        Some(node) => Progress { node, ..p },
        None => write_node(words, p, variable_node(x)),
    }
}

// Writes the not of what was stored last where there is a minus sign.
fn write_minus(words: &mut [u32], p: Progress, minus: bool) -> Progress
    requires { Room words.old (add_minus minus p) }
    ensures { Wrote words.old p (add_minus minus p) words.new result }
{
    if !minus {
        return p;
    }
    write_node(words, p, negation_node(p.node))
}

// Writes an input or the output: its name, and its not.
pub fn write_literal(words: &mut [u32], p: Progress, gate: u32, x: u32, minus: bool) -> Progress
    requires { Room words.old (add_literal p gate x minus) }
    ensures { Wrote words.old p (add_literal p gate x minus) words.new result }
{
    let q = write_name(words, p, gate, x);
    write_minus(words, q, minus)
}

// The truth table of the operator that joins the inputs of a gate.
fn join_table(kind: u8) -> u32
    ensures { result ≡ join_table kind }
{
    if kind == AND_GATE {
        return AND;
    }
    if kind == OR_GATE {
        return OR;
    }
    XOR
}

// Joins the input that was stored last to those before it, if there are any, whose node is `left`.
fn write_join(words: &mut [u32], p: Progress, left: Option<u32>) -> Progress
    requires { Room words.old (add_join left p) }
    ensures { Wrote words.old p (add_join left p) words.new result }
{
    match left {
        Some(left) => {
            let q = write_node(words, p, operator_node(join_table(p.kind), left, p.node));
            Progress {
                inputs: Some(q.node),
                ..q
            }
        }
        None => Progress {
            inputs: Some(p.node),
            ..p
        },
    }
}

// Writes an input, and the operator right after its second operand.
fn write_input(words: &mut [u32], p: Progress, gate: u32, x: u32, minus: bool) -> Progress
    requires { Room words.old (add_input p gate x minus) }
    ensures { Wrote words.old p (add_input p gate x minus) words.new result }
{
    let q = write_literal(words, p, gate, x, minus);
    write_join(words, q, p.inputs)
}

// The constant that a gate without inputs is.
fn empty_constant(kind: u8) -> bool
    ensures { result ≡ empty_constant kind }
{
    kind != OR_GATE
}

// Writes an input, or the constant of a gate without inputs.
fn write_operand(words: &mut [u32], p: Progress, gate: u32, role: u8, x: u32) -> Progress
    requires { Room words.old (add_operand p gate role x) }
    ensures { Wrote words.old p (add_operand p gate role x) words.new result }
{
    if role == EMPTY {
        return write_node(words, p, constant_node(empty_constant(p.kind)));
    }
    write_input(words, p, gate, x, is_minus(role))
}

// The kind of a quantified gate's block.
fn gate_block_kind(kind: u8) -> u32
    ensures { result ≡ gate_block_kind kind }
{
    if kind == EXISTS_GATE {
        return EXISTS_BLOCK;
    }
    FOR_ALL_BLOCK
}

// Writes the block of a quantified gate.
fn write_block(words: &mut [u32], p: Progress) -> Progress
    requires first_le_listed { p.first ≤ p.listed }
    requires room { Room words.old (add_block p) }
    ensures { Wrote words.old p (add_block p) words.new result }
{
    if EXISTS_GATE <= p.kind {
        return write_node(
            words,
            p,
            block_node(gate_block_kind(p.kind), p.first, p.listed - p.first, p.node),
        );
    }
    p
}

// Writes an input or the constant of a gate without inputs. At the last token of a gate line, its block too, and from
// then on the gate's number stands for its node.
fn write_use(words: &mut [u32], nodes: &mut [u16], p: Progress, role: u8, x: u16) -> Progress
    requires first_le_listed { p.first ≤ p.listed }
    requires nodes_len { length nodes.old ≡ number_count }
    requires room { Room words.old (add_use p (get_or nodes.old x 0) role x) }
    ensures wrote { Wrote words.old p (add_use p (get_or nodes.old x 0) role x) words.new result }
    ensures nodes_after { nodes.new ≡ pick (is_last role) (set nodes.old result.gate (result.node + 1)) nodes.old }
{
    let gate = nodes[x as usize] as u32;
    let q = write_operand(words, p, gate, role, x as u32);
    if !is_last(role) {
        return q;
    }
    let r = write_block(words, q);
    nodes[r.gate as usize] = (r.node + 1) as u16;
    r
}

// Writes what one token of a gate line adds.
//
// The contract rules out a writer that leaves out a not, one by which or() is 1, and one by which what uses a quantified
// gate is joined to the node below its block.
pub fn write_token(
    words: &mut [u32],
    list: &mut [u32],
    nodes: &mut [u16],
    p: Progress,
    role: u8,
    x: u16,
) -> Progress
    requires first_le_listed { (p.first ≤ p.listed) × (p.listed + length (token_entries role x) ≤ length list.old) × (p.listed ≤ limit) }
    requires nodes_len { length nodes.old ≡ number_count }
    requires room { Room words.old (add_token p (get_or nodes.old x 0) role x) }
    ensures wrote { Wrote words.old p (add_token p (get_or nodes.old x 0) role x) words.new result }
    ensures list_after { list.new ≡ overwrite list.old p.listed (token_entries role x) }
    ensures nodes_after { nodes.new ≡ pick (is_last role) (set nodes.old result.gate (result.node + 1)) nodes.old }
{
    if is_definition(role) {
        return Progress {
            kind: role,
            gate: x,
            inputs: None,
            first: p.listed,
            ..p
        };
    }
    if is_bound(role) {
        list[p.listed as usize] = x as u32;
        return Progress {
            listed: p.listed + 1,
            ..p
        };
    }
    write_use(words, nodes, p, role, x)
}

// The walk that counts or writes the text of a form: header, free line, prefix lines, output line, gate lines. Over an
// empty buffer it tells the size, over one that has room it writes.
#![tactic(auto)]

ghost use Rattle.std.specs.Prelude.{[], map, ◌≡◌, ℕ, suc, ◌+◌, ◌*◌, ◌/◌, ◌<◌, ◌≤◌, length, get_or};
ghost use Rattle.formula.specs.Words.{node_count, node_at, table_of};
ghost use Rattle.formula.specs.Form.{prefix_width, block_at, blocks_of};
ghost use Rattle.acceptance.specs.Accepted.{AcceptedWithin};
ghost use Rattle.form_check.specs.Verdict.{form_limits};
ghost use Rattle.form_check.specs.Accepted.{AcceptedForm};
ghost use Rattle.qcir.specs.Spelling.{free_signs, gates_signs};
ghost use Rattle.qcir_text.specs.Text.{signs_text};
ghost use Rattle.texts.specs.Put.{Put};
ghost use Rattle.qcir_text.specs.Pieces.{named, literal_of, number_bound, last_line, AllWritable};
ghost use Rattle.qcir_form.specs.File.{row_gates, free_names, prefix_lines, first_gate, form_text};
ghost use Rattle.qcir_rows.specs.Shapes.{kind_meant};
ghost use Rattle.qcir_literals.specs.Literals.{Filled};
ghost use Rattle.name_flags.specs.Flags.{FreeFlags, flagged_below};
ghost use Rattle.qcir_lines.specs.Lines.{
  last_start,
  is_free,
  name_text,
  block_text,
  blocks_text,
  Writable,
  held_gates,
  gates_text,
};

use form_check::PREFIX_WIDTH;
use name_flags::FREE;
use qcir_rows::{Row, RowKind, Shape};

// Puts the text of a form. `names` has the flag 2 at the open names that occur, none of which is above `highest`, and
// `literals` the literal of each node.
//
// The contract rules out a walk that writes the inputs of an `or` with their signs unturned, one that leaves a sign
// inside an `xor`, and one whose free line has a name that occurs nowhere.
pub fn put_text(
    nodes: &[u32],
    prefix: &[u32],
    variables: &[u32],
    names: &[u8],
    highest: u32,
    literals: &[u32],
    text: &mut [u8],
) -> usize
    requires accepted_form { AcceptedForm nodes.now prefix.now variables.now }
    requires free_flags { FreeFlags (is_free (table_of nodes.now []) (blocks_of prefix.now variables.now)) names.now highest }
    requires filled { Filled (table_of nodes.now [])
        (first_gate (free_names (table_of nodes.now []) (blocks_of prefix.now variables.now))
        (prefix_lines (blocks_of prefix.now variables.now))) literals.now }
    requires literals_len { length literals.now ≡ 40960 }
    ensures { Put text.old 0
        (form_text nodes.now prefix.now variables.now) text.new result }
{
    let mut next = qcir_text::put_header(text, 0);
    next = put_free(names, highest, text, next);
    next = put_prefix(prefix, variables, text, next);
    let root = nodes.len() / formula::WIDTH - 1;
    next = qcir_text::put_output(text, next, literals[root]);
    put_gates(nodes, literals, text, next)
}

// Puts the free line: the names up to `highest` that have the flag 2; nothing if there is none.
fn put_free(names: &[u8], highest: u32, text: &mut [u8], at: usize) -> usize
    requires { (highest < length names.now) × (length names.now ≤ 77824) × (at ≤ last_start) }
    ensures { Put text.old at
        (signs_text (free_signs (map named (flagged_below names.now (suc highest))))) text.new result }
{
    let mut next = at;
    for (x, flag) in names[..=highest as usize].iter().enumerate() {
        next = put_free_name(*flag, x as u32, text, next, next == at);
    }
    if next == at {
        return at;
    }
    qcir_text::put_close(text, next)
}

// Puts a name into the free line if its flag is 2.
fn put_free_name(flag: u8, x: u32, text: &mut [u8], at: usize, first: bool) -> usize
    requires { (x < number_bound) × (at ≤ last_line) }
    ensures put { Put text.old at (name_text first flag x) text.new result }
    ensures upper_bound { result ≤ at + 11 }
{
    if flag != FREE {
        return at;
    }
    if first {
        return qcir_text::put_first_free(text, at, x);
    }
    qcir_text::put_next_name(text, at, x)
}

// Puts the prefix lines.
fn put_prefix(prefix: &[u32], variables: &[u32], text: &mut [u8], at: usize) -> usize
    requires writable { Writable prefix.now variables.now }
    requires at_le_last_start { at ≤ last_start }
    ensures { Put text.old at
        (blocks_text prefix.now variables.now (length prefix.now / prefix_width))
        text.new result }
{
    let blocks = prefix.len() / PREFIX_WIDTH;
    let mut next = at;
    for j in 0..blocks {
        next = put_prefix_block(prefix, variables, j, text, next);
    }
    next
}

// Puts the line of block j of a prefix; nothing if the block is empty.
fn put_prefix_block(
    prefix: &[u32],
    variables: &[u32],
    j: usize,
    text: &mut [u8],
    at: usize,
) -> usize
    requires prefix_width_in_bounds { (prefix_width * j + prefix_width ≤ length prefix.now) × (at ≤ last_line) }
    requires j_in_bounds { get_or prefix.now (prefix_width * j + 1) 0 + get_or prefix.now (prefix_width * j + 2) 0 ≤ length variables.now }
    requires all_writable { AllWritable (block_at prefix.now variables.now j).variables }
    ensures { Put text.old at
        (block_text (block_at prefix.now variables.now j)) text.new result }
{
    let word = PREFIX_WIDTH * j;
    let first = prefix[word + 1] as usize;
    let end = first + prefix[word + 2] as usize;
    qcir_text::put_block(text, at, prefix[word], &variables[first..end])
}

// Puts the gate lines, in node order.
fn put_gates(nodes: &[u32], literals: &[u32], text: &mut [u8], at: usize) -> usize
    requires accepted_within { AcceptedWithin form_limits nodes.now [] }
    requires literals_len { (length literals.now ≡ 40960) × ((j : ℕ) → get_or literals.now j 0 < number_bound) × (at ≤ last_start) }
    ensures { Put text.old at
        (gates_text nodes.now literals.now (node_count nodes.now)) text.new result }
{
    let n = nodes.len() / formula::WIDTH;
    let mut next = at;
    for i in 0..n {
        next = put_gate(nodes, literals, i, text, next);
    }
    next
}

// Puts the gate line of node i, if it has one.
fn put_gate(nodes: &[u32], literals: &[u32], i: usize, text: &mut [u8], at: usize) -> usize
    requires accepted_within { AcceptedWithin form_limits nodes.now [] }
    requires i_bound { (i < node_count nodes.now) × (length literals.now ≡ 40960) × (at ≤ last_line) }
    requires by_index { (j : ℕ) → get_or literals.now j 0 < number_bound }
    ensures put { Put text.old at
        (signs_text (gates_signs (held_gates literals.now i (node_at nodes.now [] i)))) text.new result }
    ensures upper_bound { result ≤ at + 31 }
{
    let own = literals[i];
    if own == 0 {
        return at;
    }
    match qcir_rows::shape_at(nodes, i) {
        Shape::Name(_) => at,
        Shape::Row { left, right, row } => {
            let l = literals[left as usize];
            let m = literals[right as usize];
            put_row(row, own / 2, l, m, text, at)
        }
    }
}

// Puts the gate line of a row, if it has one: `gate` is its number, and l and m stand for the operands. The inputs of an
// `and` get the row's signs, those of an `xor` have none.
fn put_row(row: Row, gate: u32, l: u32, m: u32, text: &mut [u8], at: usize) -> usize
    requires { (gate < number_bound) × (l < number_bound) × (m < number_bound) × (at ≤ last_line) }
    ensures put { Put text.old at
        (signs_text (gates_signs (row_gates (kind_meant row.kind) row.left row.right gate (literal_of l) (literal_of m)))) text.new result }
    ensures upper_bound { result ≤ at + 31 }
{
    match row.kind {
        RowKind::Left | RowKind::Right => at,
        RowKind::And => {
            let left = qcir_literals::turned(l, row.left);
            let right = qcir_literals::turned(m, row.right);
            qcir_text::put_and(text, at, gate, left, right)
        }
        RowKind::Xor => qcir_text::put_xor(text, at, gate, l / 2 * 2, m / 2 * 2),
        RowKind::Constant => qcir_text::put_constant(text, at, gate),
    }
}

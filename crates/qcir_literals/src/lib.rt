// A pass over a matrix from its first node up: the literal that stands for each node that is written, gates
// being numbered in node order. A literal is held in one word: twice its number, and one more with a
// minus sign. The words stand where the marks stood, 0 at a node that is not written, since memory is
// fixed: literals of two fields, or options, would need an array of their own.
#![tactic(auto)]

ghost use Rattle.std.specs.Prelude.{[], ◌≡◌, ℕ, ◌+◌, ◌/◌, ◌<◌, ◌≤◌, length, get_or};
ghost use Rattle.formula.specs.Truth.{digit};
ghost use Rattle.formula.specs.Words.{node_count, node_at, table_of};
ghost use Rattle.acceptance.specs.Accepted.{AcceptedWithin};
ghost use Rattle.form_check.specs.Verdict.{form_limits};
ghost use Rattle.qcir_text.specs.Pieces.{literal_of, number_bound};
ghost use Rattle.qcir_form.specs.Rows.{left_row, right_row};
ghost use Rattle.qcir_form.specs.File.{turned, row_has_gate, row_literal, written};
ghost use Rattle.qcir_rows.specs.Shapes.{kind_meant};
ghost use Rattle.qcir_literals.specs.Literals.{Filled, NodeFilled};

use qcir_rows::{Row, RowKind, Shape};

// Stores the literal of each marked node over its mark; the first gate has this number.
//
// The contract rules out a pass that forgets the sign of the whole, and one that gives two gates one
// number.
pub fn fill_literals(nodes: &[u32], literals: &mut [u32], first: u32)
    requires accepted_within { AcceptedWithin form_limits nodes.now [] }
    requires literals_len { (length literals.old ≡ 40960)
        × ((j : ℕ) → get_or literals.old j 0 ≡ digit (written (table_of nodes.now []) j)) }
    requires first_nonzero { (0 < first) × (first ≤ 77824) }
    ensures { Filled (table_of nodes.now []) first literals.new }
{
    let mut gate = first;
    for i in 0..nodes.len() / formula::WIDTH {
        gate = fill_node(nodes, literals, i, gate);
    }
}

// The same of one node. `gate` is the number of the next gate, and so is the result.
fn fill_node(nodes: &[u32], literals: &mut [u32], i: usize, gate: u32) -> u32
    requires accepted_within { AcceptedWithin form_limits nodes.now [] }
    requires i_bound { (i < node_count nodes.now) × (length literals.old ≡ 40960) × (0 < gate) × (gate < 400000) }
    requires by_index { (j : ℕ) → get_or literals.old j 0 < number_bound }
    ensures { NodeFilled (node_at nodes.now [] i) i gate literals.old literals.new result }
{
    if literals[i] == 0 {
        return gate;
    }
    match qcir_rows::shape_at(nodes, i) {
        Shape::Name(x) => {
            literals[i] = 2 * x;
            gate
        }
        Shape::Row { left, right, row } => {
            let l = literals[left as usize];
            let m = literals[right as usize];
            literals[i] = row_literal(row, gate, l, m);
            gate_after(row.kind, gate)
        }
    }
}

// What stands for an operator, `gate` being its gate's number and l and m what stands for its operands.
// The signs of an `xor`'s operands go to the whole.
fn row_literal(row: Row, gate: u32, l: u32, m: u32) -> u32
    requires { (0 < gate) × (gate < 400000) × (l < number_bound) × (m < number_bound) }
    ensures result_value { literal_of result ≡ row_literal (kind_meant row.kind) row.whole gate (literal_of l) (literal_of m) }
    ensures lower_bound { ((kind_meant row.kind ≡ left_row → 1 < l) → (kind_meant row.kind ≡ right_row → 1 < m) → 1 < result)
        × (result < number_bound) }
{
    let whole = row.whole as u32;
    match row.kind {
        RowKind::Left => turned(l, row.whole),
        RowKind::Right => turned(m, row.whole),
        RowKind::Xor => 2 * gate + (whole + l + m) % 2,
        RowKind::Constant | RowKind::And => 2 * gate + whole,
    }
}

// The literal, its sign turned if that is asked.
pub fn turned(literal: u32, sign: bool) -> u32
    ensures result_value { literal_of result ≡ turned sign (literal_of literal) }
    ensures result_value_2 { result / 2 ≡ literal / 2 }
{
    literal ^ sign as u32
}

// The number of the next gate after a node of a row of this kind. A signed operand has no gate.
fn gate_after(kind: RowKind, gate: u32) -> u32
    requires { gate < 400000 }
    ensures { result ≡ gate + digit (row_has_gate (kind_meant kind)) }
{
    match kind {
        RowKind::Left | RowKind::Right => gate,
        RowKind::Constant | RowKind::And | RowKind::Xor => gate + 1,
    }
}

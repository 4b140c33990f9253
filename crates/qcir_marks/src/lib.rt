// A pass over a matrix from its root down: which nodes are written, and which names occur at them. An
// operand that a row ignores is not written, nor what hangs on it.
#![tactic(auto)]

ghost use Rattle.std.specs.Prelude.{[], ◌∷◌, ◌≡◌, ℕ, ◌<◌, length, get_or};
ghost use Rattle.lists.specs.Choice.{pick};
ghost use Rattle.lists.specs.Members.{mem};
ghost use Rattle.formula.specs.Words.{node_count, node_at, table_of};
ghost use Rattle.acceptance.specs.Accepted.{AcceptedWithin};
ghost use Rattle.form_check.specs.Verdict.{form_limits};
ghost use Rattle.qcir_form.specs.File.{row_operands};
ghost use Rattle.qcir_rows.specs.Shapes.{kind_meant};
ghost use Rattle.qcir_marks.specs.Marks.{
  root_mark,
  Marked,
  NodeMarked,
  is_marked,
};

use qcir_rows::{RowKind, Shape};

// Marks the nodes that are written, and gives each name at one of them the flag 2 if it has none. The
// result is the highest name that got one, 0 if none did: no name is 0, and whoever takes a maximum over
// names needs no case for none.
//
// The contract rules out a pass that marks an operand that its row ignores, and one that flags a name at
// an ignored node.
pub fn mark_written(nodes: &[u32], marks: &mut [u32], names: &mut [u8]) -> u32
    requires accepted_within { AcceptedWithin form_limits nodes.now [] }
    requires marks_len { (length marks.old ≡ 40960) × ((i : ℕ) → get_or marks.old i 0 ≡ 0) }
    requires names_len { length names.old ≡ 77824 }
    ensures { Marked (table_of nodes.now []) names.old marks.new names.new result }
{
    let n = nodes.len() / formula::WIDTH;
    marks[n - 1] = 1;
    mark_down(nodes, marks, names, n)
}

// The same once the root is marked.
fn mark_down(nodes: &[u32], marks: &mut [u32], names: &mut [u8], n: usize) -> u32
    requires accepted_within { AcceptedWithin form_limits nodes.now [] }
    requires marks_len { (length marks.old ≡ 40960) × ((i : ℕ) → get_or marks.old i 0 ≡ root_mark (table_of nodes.now []) i) }
    requires names_len { (length names.old ≡ 77824) × (n ≡ node_count nodes.now) }
    ensures { Marked (table_of nodes.now []) names.old marks.new names.new result }
{
    let mut highest: u32 = 0;
    for i in (0..n).rev() {
        highest = mark_node(nodes, marks, names, i, highest);
    }
    highest
}

// The same of one node.
fn mark_node(nodes: &[u32], marks: &mut [u32], names: &mut [u8], i: usize, highest: u32) -> u32
    requires accepted_within { AcceptedWithin form_limits nodes.now [] }
    requires i_bound { (i < node_count nodes.now) × (length marks.old ≡ 40960) × (length names.old ≡ 77824) }
    ensures { NodeMarked (is_marked marks.old i) (node_at nodes.now [] i)
        marks.old names.old highest marks.new names.new result }
{
    if marks[i] == 0 {
        return highest;
    }
    match qcir_rows::shape_at(nodes, i) {
        Shape::Name(x) => name_flags::flag_name(names, x, highest),
        Shape::Row { left, right, row } => {
            mark_operands(marks, row.kind, left as usize, right as usize);
            highest
        }
    }
}

// Marks the operands that a row of this kind does not ignore.
fn mark_operands(marks: &mut [u32], kind: RowKind, left: usize, right: usize)
    requires { (left < length marks.old) × (right < length marks.old) }
    ensures { (i : ℕ) → get_or marks.new i 0
        ≡ pick (mem i (row_operands (kind_meant kind) left right)) 1 (get_or marks.old i 0) }
{
    match kind {
        RowKind::Constant => {}
        RowKind::Left => mark_two(marks, left, left),
        RowKind::Right => mark_two(marks, right, right),
        RowKind::And | RowKind::Xor => mark_two(marks, left, right),
    }
}

// Marks two nodes, or one that is given twice: so what each kind of row marks is told by its operands alone.
fn mark_two(marks: &mut [u32], first: usize, second: usize)
    requires { (first < length marks.old) × (second < length marks.old) }
    ensures { (i : ℕ) → get_or marks.new i 0
        ≡ pick (mem i (first ∷ second ∷ [])) 1 (get_or marks.old i 0) }
{
    marks[first] = 1;
    marks[second] = 1;
}

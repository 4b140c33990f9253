// The sixteen rows: what each operator is written as, and with it every node of a matrix.
#![tactic(auto)]

ghost use Rattle.std.specs.Prelude.{[], ◌≡◌, ◌<◌};
ghost use Rattle.formula.specs.Words.{node_count, node_at};
ghost use Rattle.acceptance.specs.Accepted.{AcceptedWithin};
ghost use Rattle.form_check.specs.Verdict.{form_limits};
ghost use Rattle.qcir_form.specs.Rows.{row};
ghost use Rattle.qcir_rows.specs.Shapes.{row_meant, leaf_shape, ShapeFor};

use formula::{NEGATION, OPERATOR, VARIABLE};

// The kinds of rows: a constant, a signed operand, `and` of signed operands, `xor`.
#[derive(Clone, Copy)]
pub enum RowKind {
    Constant,
    Left,
    Right,
    And,
    Xor,
}

// A row: its kind, and whether the left operand, the right one and the whole have a minus sign.
#[derive(Clone, Copy)]
pub struct Row {
    pub kind: RowKind,
    pub left: bool,
    pub right: bool,
    pub whole: bool,
}

// The rows of truth tables 0 to 15: kind, left, right and whole of each. It is a static, which is read where it stands:
// the compiler would copy a constant that is indexed at each node.
static ROWS: [(RowKind, bool, bool, bool); 16] = [
    (RowKind::Constant, false, false, true),
    (RowKind::And, true, true, false),
    (RowKind::And, true, false, false),
    (RowKind::Left, false, false, true),
    (RowKind::And, false, true, false),
    (RowKind::Right, false, false, true),
    (RowKind::Xor, false, false, false),
    (RowKind::And, false, false, true),
    (RowKind::And, false, false, false),
    (RowKind::Xor, false, false, true),
    (RowKind::Right, false, false, false),
    (RowKind::And, false, true, true),
    (RowKind::Left, false, false, false),
    (RowKind::And, true, false, true),
    (RowKind::And, true, true, true),
    (RowKind::Constant, false, false, false),
];

// The row of an operator's truth table.
pub fn row_of(table: usize) -> Row
    requires { table < 16 }
    ensures { row_meant result ≡ row table }
{
    let (kind, left, right, whole) = ROWS[table];
    Row {
        kind,
        left,
        right,
        whole,
    }
}

// How a node is written: a name, or a row over its operands. The row stands last, so that in memory a name lies over an
// operand: over the four bytes of the row it made the passes over a matrix slower.
#[derive(Clone, Copy)]
pub enum Shape {
    Name(u32),
    Row { left: u32, right: u32, row: Row },
}

// How node i of a matrix is written. A not node is the left operand with a minus sign, a constant one of
// the two constant rows.
pub fn shape_at(nodes: &[u32], i: usize) -> Shape
    requires accepted_within { AcceptedWithin form_limits nodes.now [] }
    requires i_bound { i < node_count nodes.now }
    ensures { ShapeFor (node_at nodes.now [] i) result }
{
    let node = formula::node_at(nodes, i);
    match node.kind {
        OPERATOR => Shape::Row {
            left: node.b,
            right: node.c,
            row: row_of(node.a as usize),
        },
        NEGATION => leaf(RowKind::Left, true, node.a),
        VARIABLE => Shape::Name(node.a),
        _ => leaf(RowKind::Constant, node.a == 0, 0),
    }
}

// The shape of a row with at most one operand, the left one, which has no sign of its own.
fn leaf(kind: RowKind, whole: bool, left: u32) -> Shape
    ensures { result ≡ leaf_shape kind whole left }
{
    let row = Row {
        kind,
        left: false,
        right: false,
        whole,
    };
    Shape::Row {
        left,
        right: 0,
        row,
    }
}

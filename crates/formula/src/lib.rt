// What formula tables and prenex forms mean: nodes, ranges, valuations, truth. Definitions stand
// in specs/, their laws in proofs/. The code here reads and writes one node's words and
// tests its kind.
#![tactic(auto)]

ghost use Rattle.std.specs.Prelude.{◌≡◌, ◌+◌, ◌*◌, ◌≤◌, length};
ghost use Rattle.lists.specs.Parts.{overwrite};
ghost use Rattle.formula.specs.Node.{constant, variable, negation, operator};
ghost use Rattle.formula.specs.Words.{width, is_block_kind, is_empty_block, words_at, words_of, block_words, word_list};

// The words of a node: a kind and three fields. Nothing else says how many there are.
pub const WIDTH: usize = 4;

// The kinds of nodes.
pub const CONSTANT: u32 = 1;

pub const VARIABLE: u32 = 2;

pub const NEGATION: u32 = 3;

pub const OPERATOR: u32 = 4;

pub const EXISTS_BLOCK: u32 = 5;

pub const FOR_ALL_BLOCK: u32 = 6;

// Whether a kind is a block's.
pub fn is_block_kind(kind: u32) -> bool
    ensures { result ≡ is_block_kind kind }
{
    (kind == EXISTS_BLOCK) | (kind == FOR_ALL_BLOCK)
}

// A node's words: its kind and what stands in its fields.
#[derive(Clone, Copy)]
pub struct NodeWords {
    pub kind: u32,
    pub a: u32,
    pub b: u32,
    pub c: u32,
}

// Node i of a table.
pub fn node_at(words: &[u32], i: usize) -> NodeWords
    requires { width * i + width ≤ length words.now }
    ensures { result ≡ words_at words.now i }
{
    let at = WIDTH * i;
    NodeWords {
        kind: words[at],
        a: words[at + 1],
        b: words[at + 2],
        c: words[at + 3],
    }
}

// Whether a node is a block that binds nothing.
pub fn is_empty_block(node: NodeWords) -> bool
    ensures { result ≡ is_empty_block node }
{
    is_block_kind(node.kind) & (node.b == 0)
}

// Writes a node's words over node `at`.
pub fn put_node(nodes: &mut [u32], at: usize, node: NodeWords)
    requires { width * at + width ≤ length nodes.old }
    ensures { nodes.new ≡ overwrite nodes.old (width * at) (word_list node) }
{
    let first = WIDTH * at;
    nodes[first] = node.kind;
    nodes[first + 1] = node.a;
    nodes[first + 2] = node.b;
    nodes[first + 3] = node.c;
}

// The words of a constant.
pub fn constant_node(value: bool) -> NodeWords
    ensures { result ≡ words_of (constant value) }
{
    NodeWords {
        kind: CONSTANT,
        a: value as u32,
        b: 0,
        c: 0,
    }
}

// The words of a variable node.
pub fn variable_node(x: u32) -> NodeWords
    ensures { result ≡ words_of (variable x) }
{
    NodeWords {
        kind: VARIABLE,
        a: x,
        b: 0,
        c: 0,
    }
}

// The words of a not node.
pub fn negation_node(operand: u32) -> NodeWords
    ensures { result ≡ words_of (negation operand) }
{
    NodeWords {
        kind: NEGATION,
        a: operand,
        b: 0,
        c: 0,
    }
}

// The words of an operator node.
pub fn operator_node(table: u32, left: u32, right: u32) -> NodeWords
    ensures { result ≡ words_of (operator table left right) }
{
    NodeWords {
        kind: OPERATOR,
        a: table,
        b: left,
        c: right,
    }
}

// The words of a block of this kind.
pub fn block_node(kind: u32, first: u32, count: u32, body: u32) -> NodeWords
    ensures { result ≡ block_words kind first count body }
{
    NodeWords {
        kind,
        a: first,
        b: count,
        c: body,
    }
}

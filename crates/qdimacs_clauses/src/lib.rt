// The clauses of a matrix, put into a buffer gate by gate. Over an empty buffer the walk tells the size, over one
// that has room it writes.
#![tactic(auto)]

ghost use Rattle.std.specs.Prelude.{[], ◌≡◌, ℕ, suc, ◌+◌, ◌*◌, ◌-◌, ◌<◌, ◌≤◌};
ghost use Rattle.formula.specs.Truth.{operator_value};
ghost use Rattle.formula.specs.Words.{node_count, field, table_of};
ghost use Rattle.acceptance.specs.Accepted.{AcceptedWithin};
ghost use Rattle.form_check.specs.Verdict.{form_limits};
ghost use Rattle.texts.specs.Bounds.{last_piece, last_line};
ghost use Rattle.texts.specs.Put.{Put};
ghost use Rattle.qdimacs_form.specs.Clauses.{two_operands, written_clauses};
ghost use Rattle.qdimacs_words.specs.Words.{Loose};
ghost use Rattle.qdimacs_rows.specs.Rows.{lines_text, IsWord, SomeWord};
ghost use Rattle.qdimacs_clauses.specs.Held.{WordsHeld, clauses_at, lines_below, root_text};

// Room for the clauses of one gate and the root's own.
const ROOT_ROOM: usize = 160;

// Puts the clauses of the gates below the root, in node order. `words` holds the word of each node's variable.
//
// The contract rules out a walk that writes a gate's literal unturned, one whose rows have the right operand
// leading, and one that writes a clause which is dropped.
pub fn put_gates(nodes: &[u32], words: &[u64], text: &mut [u8], at: usize) -> usize
    requires accepted_within { AcceptedWithin form_limits nodes.now [] }
    requires words_held { WordsHeld (table_of nodes.now []) words.now }
    requires at_le_last_line { at ≤ last_line }
    ensures loose { (held : WordsHeld (table_of nodes.now []) words.now)
        → Loose text.old at
        (lines_below (table_of nodes.now []) held.variables (node_count nodes.now - 1))
        text.new result }
    ensures upper_bound { result ≤ at + 104 * node_count nodes.now }
{
    let last = nodes.len() / formula::WIDTH - 1;
    let mut next = at;
    for i in 0..last {
        next = put_gate(nodes, words, i, text, next);
    }
    next
}

// Puts the clauses of node i; nothing if it is a variable, which the root may not be here.
fn put_gate(nodes: &[u32], words: &[u64], i: usize, text: &mut [u8], at: usize) -> usize
    requires accepted_within { AcceptedWithin form_limits nodes.now [] }
    requires words_held { WordsHeld (table_of nodes.now []) words.now }
    requires i_bound { (i < node_count nodes.now) × (field nodes.now i 0 ≡ 2 → suc i < node_count nodes.now) × (at ≤ last_piece) }
    ensures loose { (held : WordsHeld (table_of nodes.now []) words.now)
        → Loose text.old at
        (lines_text (clauses_at (table_of nodes.now []) held.variables i)) text.new result }
    ensures upper_bound { result ≤ at + 104 }
{
    let node = formula::node_at(nodes, i);
    if node.kind == formula::VARIABLE {
        return at;
    }
    let gate = words[i];
    if node.kind == formula::OPERATOR {
        let left = node.b as usize;
        let right = node.c as usize;
        return put_operator(text, at, gate, node.a, words[left], words[right]);
    }
    if node.kind == formula::NEGATION {
        let operand = node.a as usize;
        return qdimacs_rows::put_one_operand(text, at, gate, words[operand], true, false);
    }
    qdimacs_rows::put_no_operand(text, at, gate, node.a == 1)
}

// Puts the clauses of the root's gate and the root's own, exactly: what was put before may have spoilt bytes behind
// it, and these take their place.
//
// The contract rules out a root that is a variable without its gate, and a text without the root's own clause.
pub fn put_root(nodes: &[u32], words: &[u64], text: &mut [u8], at: usize) -> usize
    requires accepted_within { AcceptedWithin form_limits nodes.now [] }
    requires words_held { WordsHeld (table_of nodes.now []) words.now }
    requires at_le_last_piece { at ≤ last_piece }
    ensures { (held : WordsHeld (table_of nodes.now []) words.now)
        → Put text.old at (root_text (table_of nodes.now []) held.variables) text.new result }
{
    let root = nodes.len() / formula::WIDTH - 1;
    let mut local = [0u8; ROOT_ROOM];
    let gate = put_root_gate(nodes, words, root, &mut local);
    let end = qdimacs_rows::put_no_operand(&mut local, gate, words[root], true);
    texts::put_word(text, at, &local[..end])
}

// Puts the clauses of the root's gate at the start of a buffer.
fn put_root_gate(nodes: &[u32], words: &[u64], root: usize, text: &mut [u8]) -> usize
    requires accepted_within { AcceptedWithin form_limits nodes.now [] }
    requires words_held { WordsHeld (table_of nodes.now []) words.now }
    requires root_value { suc root ≡ node_count nodes.now }
    ensures loose { (held : WordsHeld (table_of nodes.now []) words.now)
        → Loose text.old 0
        (lines_text (clauses_at (table_of nodes.now []) held.variables root)) text.new result }
    ensures upper_bound { result ≤ 104 }
{
    let node = formula::node_at(nodes, root);
    if node.kind == formula::VARIABLE {
        let word = qdimacs_words::numeral_word(node.a);
        return qdimacs_rows::put_one_operand(text, 0, words[root], word, false, true);
    }
    put_gate(nodes, words, root, text, 0)
}

// Puts the clauses of an operator with this truth table, whose operands have the words x and y. If these are one
// variable, the rows in which they differ are dropped.
fn put_operator(text: &mut [u8], at: usize, gate: u64, table: u32, x: u64, y: u64) -> usize
    requires { SomeWord gate × SomeWord x × SomeWord y × (table < 16) × (at ≤ last_piece) }
    ensures by_index { (g a b : ℕ) → IsWord gate g → IsWord x a → IsWord y b → a < g → b < g
        → Loose text.old at
        (lines_text (written_clauses (two_operands g (operator_value table) a b))) text.new result }
    ensures upper_bound { result ≤ at + 104 }
{
    if x == y {
        return qdimacs_rows::put_one_operand(text, at, gate, x, table % 2 == 1, table / 8 == 1);
    }
    qdimacs_rows::put_two_operands(text, at, gate, table, x, y)
}

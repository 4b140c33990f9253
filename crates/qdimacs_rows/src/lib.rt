// The clauses of one gate, a row of its meaning each, put into a buffer. Over an empty buffer a call tells the size,
// over one that has room it writes.
#![tactic(auto)]

ghost use Rattle.std.specs.Prelude.{Bool, true, false, List, [], ◌∷◌, ◌++◌, ◌≡◌, ℕ, ◌+◌, ◌<◌, ◌≤◌, length};
ghost use Rattle.formula.specs.Truth.{operator_value};
ghost use Rattle.texts.specs.Bounds.{last_piece};
ghost use Rattle.qdimacs_form.specs.Clauses.{has_value, no_operand, one_operand, two_operands};
ghost use Rattle.qdimacs_words.specs.Words.{literal_text, PieceHolds, Loose};
ghost use Rattle.qdimacs_rows.specs.Rows.{lines_text, IsWord, SomeWord};

use qdimacs_words::{Piece, STORED};

// Puts the clauses of a gate without operands.
pub fn put_no_operand(text: &mut [u8], at: usize, gate: u64, value: bool) -> usize
    requires { SomeWord gate × (at ≤ last_piece + 104) }
    ensures by_index { (g : ℕ) → IsWord gate g
        → Loose text.old at (lines_text (no_operand g value)) text.new result }
    ensures upper_bound { result ≤ at + 10 }
{
    let own = literal(gate, value);
    let next = at + own.length + 2;
    if next + STORED <= text.len() {
        let end = qdimacs_words::store_piece(text, at, own);
        return qdimacs_words::store_end(text, end);
    }
    next
}

// The literal that says that a variable, a gate's or an operand's, has this value.
fn literal(word: u64, value: bool) -> Piece
    requires { SomeWord word }
    ensures by_index { (x : ℕ) → IsWord word x → PieceHolds result (literal_text (has_value x value)) }
    ensures length_bound { result.length ≤ 8 }
{
    if value {
        return qdimacs_words::positive(word);
    }
    qdimacs_words::negative(word)
}

// Puts the clauses of a gate with one operand: the gate's value is `off` where the operand is false, and `on` where
// it is true.
pub fn put_one_operand(text: &mut [u8], at: usize, gate: u64, x: u64, off: bool, on: bool) -> usize
    requires { SomeWord gate × SomeWord x × (at ≤ last_piece) }
    ensures by_index { (g a : ℕ) (f : Bool → Bool) → IsWord gate g → IsWord x a → off ≡ f false → on ≡ f true
        → Loose text.old at (lines_text (one_operand g f a)) text.new result }
    ensures upper_bound { result ≤ at + 36 }
{
    let operand = literal(x, true);
    let turned = literal(x, false);
    let first = literal(gate, off);
    let second = literal(gate, on);
    let next = at + operand.length + first.length + turned.length + second.length + 4;
    if next + STORED <= text.len() {
        let middle = store_two(text, at, operand, first);
        return store_two(text, middle, turned, second);
    }
    next
}

// Stores a clause of two literals.
fn store_two(text: &mut [u8], at: usize, a: Piece, b: Piece) -> usize
    requires { (a.length ≤ 8) × (b.length ≤ 8) × (at + a.length + b.length + 10 ≤ length text.old) }
    ensures by_index { (xs ys : List ℕ) → PieceHolds a xs → PieceHolds b ys
        → Loose text.old at (xs ++ (ys ++ (48 ∷ 10 ∷ []))) text.new result }
    ensures value { result ≡ at + a.length + b.length + 2 }
{
    let mut next = qdimacs_words::store_piece(text, at, a);
    next = qdimacs_words::store_piece(text, next, b);
    qdimacs_words::store_end(text, next)
}

// Puts the clauses of a gate with two operands: rows from false to true with the left leading. A literal of an operand
// is false in its row, the gate's is positive where the truth table has a 1.
pub fn put_two_operands(text: &mut [u8], at: usize, gate: u64, table: u32, x: u64, y: u64) -> usize
    requires { SomeWord gate × SomeWord x × SomeWord y × (table < 16) × (at ≤ last_piece) }
    ensures by_index { (g a b : ℕ) → IsWord gate g → IsWord x a → IsWord y b
        → Loose text.old at (lines_text (two_operands g (operator_value table) a b)) text.new result }
    ensures upper_bound { result ≤ at + 104 }
{
    let next = at + rows_size(gate, table, x, y);
    if next + STORED <= text.len() {
        return store_rows(text, at, gate, table, x, y);
    }
    next
}

// How many bytes four rows take: in each a space behind each number, the end of the clause, and a minus sign where an
// operand is true or the gate false.
fn rows_size(gate: u64, table: u32, x: u64, y: u64) -> usize
    requires { SomeWord gate × SomeWord x × SomeWord y × (table < 16) }
    ensures by_index { (g a b : ℕ) → IsWord gate g → IsWord x a → IsWord y b
        → result ≡ length (lines_text (two_operands g (operator_value table) a b)) }
    ensures upper_bound { result ≤ 104 }
{
    let left = qdimacs_words::positive(x);
    let right = qdimacs_words::positive(y);
    let own = qdimacs_words::positive(gate);
    let ones = table % 2 + table / 2 % 2 + table / 4 % 2 + table / 8;
    4 * (left.length + right.length + own.length) + 16 - ones as usize
}

// Stores them, where there is room.
fn store_rows(text: &mut [u8], at: usize, gate: u64, table: u32, x: u64, y: u64) -> usize
    requires some_word { SomeWord gate × SomeWord x × SomeWord y × (table < 16) }
    requires by_index { (g a b : ℕ) → IsWord gate g → IsWord x a → IsWord y b
        → at + length (lines_text (two_operands g (operator_value table) a b)) + 8 ≤ length text.old }
    ensures { (g a b : ℕ) → IsWord gate g → IsWord x a → IsWord y b
        → Loose text.old at (lines_text (two_operands g (operator_value table) a b)) text.new result }
{
    let left = literal(x, true);
    let right = literal(y, true);
    let turned_left = literal(x, false);
    let turned_right = literal(y, false);
    let none = literal(gate, table % 2 == 1);
    let right_only = literal(gate, table / 2 % 2 == 1);
    let left_only = literal(gate, table / 4 % 2 == 1);
    let both = literal(gate, table / 8 == 1);
    let mut next = store_three(text, at, left, right, none);
    next = store_three(text, next, left, turned_right, right_only);
    next = store_three(text, next, turned_left, right, left_only);
    store_three(text, next, turned_left, turned_right, both)
}

// Stores a clause of three literals. It is a piece and a clause of two, and no loop over an array of pieces, whose
// contract would speak of a list of lists of bytes.
fn store_three(text: &mut [u8], at: usize, a: Piece, b: Piece, c: Piece) -> usize
    requires length_bound { (a.length ≤ 8) × (b.length ≤ 8) × (c.length ≤ 8) }
    requires length_in_bounds { at + a.length + b.length + c.length + 10 ≤ length text.old }
    ensures by_index { (xs ys zs : List ℕ) → PieceHolds a xs → PieceHolds b ys → PieceHolds c zs
        → Loose text.old at (xs ++ (ys ++ (zs ++ (48 ∷ 10 ∷ [])))) text.new result }
    ensures value { result ≡ at + a.length + b.length + c.length + 2 }
{
    let next = qdimacs_words::store_piece(text, at, a);
    store_two(text, next, b, c)
}

// The text of a QCIR file, and its pieces written to a buffer. A call puts a piece at an index of the buffer and hands
// back the index after it. The buffer then holds the piece if it fits, and a piece is counted whether it fits or not:
// a run over an empty buffer tells the size.
#![tactic(auto)]

ghost use Rattle.std.specs.Prelude.{[], ◌∷◌, ◌++◌, ◌≡◌, ◌+◌, ◌*◌, ◌-◌, ◌≤◌, ◌<◌, length};
ghost use Rattle.formula.specs.Form.{quantifier_of};
ghost use Rattle.qcir.specs.File.{conjunction, junction_gate, xor_gate};
ghost use Rattle.qcir.specs.Spelling.{
  word,
  name,
  newline,
  free_word,
  opening,
  closing,
  comma,
  header,
  quantifier_word,
  literal_signs,
  output_signs,
  gate_signs,
  prefix_signs,
};
ghost use Rattle.qcir_text.specs.Text.{signs_text};
ghost use Rattle.texts.specs.Numerals.{digits};
ghost use Rattle.texts.specs.Put.{Put};
ghost use Rattle.qcir_text.specs.Pieces.{
  named,
  list_lines,
  literal_of,
  inputs_text,
  names_text,
  open_text,
  number_bound,
  AllWritable,
  last_piece,
  last_line,
};

use formula::EXISTS_BLOCK;

// Puts a literal, which is held as twice its number and one more with a minus sign. A minus sign is stored in any case:
// without one the number starts at the same index and takes its place.
pub fn put_literal(text: &mut [u8], at: usize, literal: u32) -> usize
    requires { (at ≤ last_piece) × (literal < 2 * number_bound) }
    ensures put { Put text.old at (signs_text (literal_signs (literal_of literal))) text.new result }
    ensures upper_bound { result ≤ at + 7 }
{
    texts::put_word(text, at, b"-");
    let sign = literal % 2;
    texts::put_number(text, at + sign as usize, literal / 2)
}

// Puts the header line.
pub fn put_header(text: &mut [u8], at: usize) -> usize
    requires { at ≤ last_piece }
    ensures put { Put text.old at (header ++ signs_text (newline ∷ [])) text.new result }
    ensures value { result ≡ at + 10 }
{
    texts::put_word(text, at, b"#QCIR-G14\n")
}

// Puts the end of a line of a list or of inputs.
pub fn put_close(text: &mut [u8], at: usize) -> usize
    requires { at ≤ last_piece }
    ensures put { Put text.old at (signs_text (word closing ∷ newline ∷ [])) text.new result }
    ensures value { result ≡ at + 2 }
{
    texts::put_word(text, at, b")\n")
}

// Puts a comma and a name.
pub fn put_next_name(text: &mut [u8], at: usize, x: u32) -> usize
    requires { (at ≤ last_piece) × (x < number_bound) }
    ensures put { Put text.old at (signs_text (word comma ∷ name (named x) ∷ [])) text.new result }
    ensures upper_bound { result ≤ at + 8 }
{
    let next = texts::put_word(text, at, b", ");
    texts::put_number(text, next, x)
}

// Puts the start of the free line and its first name.
pub fn put_first_free(text: &mut [u8], at: usize, x: u32) -> usize
    requires { (at ≤ last_line) × (x < number_bound) }
    ensures put { Put text.old at (open_text free_word (x ∷ [])) text.new result }
    ensures upper_bound { result ≤ at + 11 }
{
    let next = texts::put_word(text, at, b"free(");
    texts::put_number(text, next, x)
}

// Puts the line of a prefix block of this kind; nothing if it has no names.
pub fn put_block(text: &mut [u8], at: usize, kind: u32, names: &[u32]) -> usize
    requires { (at ≤ last_line) × (length names.now ≤ last_line) × AllWritable names.now }
    ensures put { Put text.old at
        (signs_text (prefix_signs (list_lines (quantifier_of kind) names.now))) text.new result }
    ensures upper_bound { result ≤ at + (9 + 8 * length names.now) }
{
    if names.len() == 0 {
        return at;
    }
    let mut next = put_quantifier(text, at, kind);
    next = put_names(text, next, names);
    put_close(text, next)
}

// Puts the start of a prefix line.
fn put_quantifier(text: &mut [u8], at: usize, kind: u32) -> usize
    requires { at ≤ last_line }
    ensures put { Put text.old at
        (signs_text (word (quantifier_word (quantifier_of kind)) ∷ word opening ∷ [])) text.new result }
    ensures upper_bound { result ≤ at + 7 }
{
    if kind == EXISTS_BLOCK {
        return texts::put_word(text, at, b"exists(");
    }
    texts::put_word(text, at, b"forall(")
}

// Puts names with commas between them.
fn put_names(text: &mut [u8], at: usize, names: &[u32]) -> usize
    requires { (at ≤ last_line + 7) × (0 < length names.now) × (length names.now ≤ last_line) × AllWritable names.now }
    ensures put { Put text.old at (names_text names.now) text.new result }
    ensures upper_bound { result ≤ at + 8 * length names.now }
{
    let mut next = texts::put_number(text, at, names[0]);
    for x in &names[1..] {
        next = put_next_name(text, next, *x);
    }
    next
}

// Puts the output line.
pub fn put_output(text: &mut [u8], at: usize, literal: u32) -> usize
    requires { (at ≤ last_line) × (literal < 2 * number_bound) }
    ensures put { Put text.old at (signs_text (output_signs (literal_of literal))) text.new result }
    ensures upper_bound { result ≤ at + 16 }
{
    let mut next = texts::put_word(text, at, b"output(");
    next = put_literal(text, next, literal);
    put_close(text, next)
}

// Puts the gate line of a constant.
pub fn put_constant(text: &mut [u8], at: usize, gate: u32) -> usize
    requires { (at ≤ last_line) × (gate < number_bound) }
    ensures put { Put text.old at
        (signs_text (gate_signs (junction_gate conjunction (named gate) []))) text.new result }
    ensures upper_bound { result ≤ at + 15 }
{
    let next = texts::put_number(text, at, gate);
    texts::put_word(text, next, b" = and()\n")
}

// Puts the gate line of a conjunction.
pub fn put_and(text: &mut [u8], at: usize, gate: u32, left: u32, right: u32) -> usize
    requires { (at ≤ last_line) × (gate < number_bound) × (left < 2 * number_bound) × (right < 2 * number_bound) }
    ensures put { Put text.old at
        (signs_text (gate_signs (junction_gate conjunction (named gate) (literal_of left ∷ literal_of right ∷ [])))) text.new result }
    ensures upper_bound { result ≤ at + 31 }
{
    put_gate(text, at, gate, b" = and(", left, right)
}

// Puts the gate line of an `xor`.
pub fn put_xor(text: &mut [u8], at: usize, gate: u32, left: u32, right: u32) -> usize
    requires { (at ≤ last_line) × (gate < number_bound) × (left < 2 * number_bound) × (right < 2 * number_bound) }
    ensures put { Put text.old at
        (signs_text (gate_signs (xor_gate (named gate) (literal_of left) (literal_of right)))) text.new result }
    ensures upper_bound { result ≤ at + 31 }
{
    put_gate(text, at, gate, b" = xor(", left, right)
}

// Puts a gate's name, what stands between it and the inputs, and the two inputs with the end of their line.
fn put_gate(text: &mut [u8], at: usize, gate: u32, between: &[u8], left: u32, right: u32) -> usize
    requires { (at ≤ last_line) × (gate < number_bound) × (length between.now ≤ 7) × (left < 2 * number_bound) × (right < 2 * number_bound) }
    ensures put { Put text.old at (digits gate ++ (between.now ++ inputs_text (literal_of left) (literal_of right))) text.new result }
    ensures upper_bound { result ≤ at + 31 }
{
    let mut next = texts::put_number(text, at, gate);
    next = texts::put_word(text, next, between);
    put_inputs(text, next, left, right)
}

// Puts two inputs and the end of their line.
fn put_inputs(text: &mut [u8], at: usize, left: u32, right: u32) -> usize
    requires { (at ≤ last_line + 13) × (left < 2 * number_bound) × (right < 2 * number_bound) }
    ensures put { Put text.old at (inputs_text (literal_of left) (literal_of right)) text.new result }
    ensures upper_bound { result ≤ at + 18 }
{
    let mut next = put_literal(text, at, left);
    next = texts::put_word(text, next, b", ");
    next = put_literal(text, next, right);
    put_close(text, next)
}

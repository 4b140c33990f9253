// The quantifier lines of a problem, put into a buffer: the free names, the prefix blocks, the gates. Empty blocks
// have no line, and neighbours of one kind have one together.
#![tactic(auto)]

ghost use Rattle.std.specs.Prelude.{true, [], ◌∷◌, ◌≡◌, suc, ◌+◌, ◌*◌, ◌-◌, ◌<◌, ◌≤◌, eqb, length, get_or};
ghost use Rattle.lists.specs.Choice.{pick};
ghost use Rattle.lists.specs.Parts.{numbers};
ghost use Rattle.formula.specs.Words.{is_block_kind};
ghost use Rattle.formula.specs.Form.{prefix_width, block_at, blocks_of};
ghost use Rattle.texts.specs.Bounds.{number_bound, AllWritable, last_piece, last_line};
ghost use Rattle.name_flags.specs.Flags.{flagged_below};
ghost use Rattle.qdimacs_form.specs.Clauses.{closed_blocks, filled_blocks, joined_blocks};
ghost use Rattle.qdimacs_words.specs.Words.{Loose};
ghost use Rattle.qdimacs_prefix.specs.Lines.{
  blocks_text,
  names_text,
  quantifier_kind,
  line_kind,
  end_text,
  start_text,
  turn_text,
  added_text,
  kind_after,
  run_text,
  run_kind,
  Goes,
  PrefixHeld,
};

use form_check::PREFIX_WIDTH;
use formula::EXISTS_BLOCK;
use name_flags::FREE;

// The quantifier of a block.
#[derive(Clone, Copy, PartialEq, Eq)]
pub enum Quantifier {
    Exists,
    ForAll,
}

impl Quantifier {
    // The quantifier of a block of this kind.
    fn of(kind: u32) -> Quantifier
        requires { is_block_kind kind ≡ true }
        ensures { quantifier_kind result ≡ kind }
    {
        if kind == EXISTS_BLOCK {
            Quantifier::Exists
        } else {
            Quantifier::ForAll
        }
    }

    // What its lines begin with.
    fn line_start(self) -> [u8; 2]
        ensures { result ≡ start_text (quantifier_kind self) }
    {
        match self {
            Quantifier::Exists => *b"e ",
            Quantifier::ForAll => *b"a ",
        }
    }
}

// Where a line goes on, and the quantifier of its blocks; None if no line has begun.
#[derive(Clone, Copy)]
pub struct Line {
    pub at: usize,
    pub quantifier: Option<Quantifier>,
}

// The gate variables: from `first` on, up to `end`.
#[derive(Clone, Copy)]
pub struct Gates {
    pub first: u32,
    pub end: u32,
}

// Puts the quantifier lines: the names that have the flag 2, none of which is above `highest`, in an exists block in
// front, the prefix blocks, and the gates in an exists block at the end.
//
// The contract rules out lines with the gates in front, free names in a for-all block, neighbours of one kind that are
// not joined, and neighbours that are joined before an empty block between them goes.
pub fn put_blocks(
    prefix: &[u32],
    variables: &[u32],
    names: &[u8],
    highest: u32,
    gates: Gates,
    text: &mut [u8],
    at: usize,
) -> usize
    requires prefix_held { PrefixHeld prefix.now variables.now }
    requires highest_in_bounds { (highest < length names.now) × (length names.now ≤ 77824) }
    requires first_le_end { (gates.first ≤ gates.end) × (gates.end ≤ number_bound) × (at ≤ 64) }
    ensures loose { Loose text.old at
        (blocks_text (joined_blocks (filled_blocks (closed_blocks (flagged_below names.now (suc highest))
        (blocks_of prefix.now variables.now) (numbers gates.first (gates.end - gates.first))))))
        text.new result }
    ensures upper_bound { result ≤ last_line }
{
    let mut line = Line {
        at,
        quantifier: None,
    };
    line = put_free(names, highest, text, line);
    line = put_prefix(prefix, variables, text, line);
    line = put_gates(gates, text, line);
    end_line(text, line)
}

// Puts the names up to `highest` that have the flag 2.
fn put_free(names: &[u8], highest: u32, text: &mut [u8], line: Line) -> Line
    requires { (highest < length names.now) × (length names.now ≤ 77824) × (line.at ≤ 64) }
    ensures goes { Goes text.old line
        (added_text (line_kind line) 5 (flagged_below names.now (suc highest)))
        (kind_after (line_kind line) 5 (flagged_below names.now (suc highest))) text.new result }
    ensures at_bound { result.at ≤ line.at + 11 * 77824 }
{
    let mut next = line;
    for (x, flag) in names[..highest as usize + 1].iter().enumerate() {
        next = put_free_name(*flag, x as u32, text, next);
    }
    next
}

// Puts x if its flag is 2.
fn put_free_name(flag: u8, x: u32, text: &mut [u8], line: Line) -> Line
    requires { (x < number_bound) × (line.at ≤ last_line) }
    ensures goes { Goes text.old line
        (added_text (line_kind line) 5 (pick (eqb flag 2) (x ∷ []) []))
        (kind_after (line_kind line) 5 (pick (eqb flag 2) (x ∷ []) [])) text.new result }
    ensures at_bound { result.at ≤ line.at + 11 }
{
    if flag != FREE {
        return line;
    }
    let next = turn_line(text, line, Quantifier::Exists);
    Line {
        at: qdimacs_words::put_name(text, next.at, x),
        quantifier: next.quantifier,
    }
}

// Ends a line of another quantifier and begins one of this.
fn turn_line(text: &mut [u8], line: Line, quantifier: Quantifier) -> Line
    requires { line.at ≤ last_piece }
    ensures goes { Goes text.old line (turn_text (line_kind line) (quantifier_kind quantifier))
        (quantifier_kind quantifier) text.new result }
    ensures at_bound { result.at ≤ line.at + 4 }
{
    if line.quantifier == Some(quantifier) {
        return line;
    }
    let end = end_line(text, line);
    Line {
        at: texts::put_word(text, end, &quantifier.line_start()),
        quantifier: Some(quantifier),
    }
}

// Ends a line, if one has begun.
fn end_line(text: &mut [u8], line: Line) -> usize
    requires { line.at ≤ last_piece }
    ensures loose { Loose text.old line.at (end_text (line_kind line)) text.new result }
    ensures upper_bound { result ≤ line.at + 2 }
{
    match line.quantifier {
        Some(_) => texts::put_word(text, line.at, b"0\n"),
        None => line.at,
    }
}

// Puts the prefix blocks.
fn put_prefix(prefix: &[u32], variables: &[u32], text: &mut [u8], line: Line) -> Line
    requires prefix_held { PrefixHeld prefix.now variables.now }
    requires at_bound { line.at ≤ 2147483648 }
    ensures goes { Goes text.old line
        (run_text (line_kind line) (blocks_of prefix.now variables.now))
        (run_kind (line_kind line) (blocks_of prefix.now variables.now)) text.new result }
    ensures at_bound_2 { result.at ≤ line.at + 11 * 77824 }
{
    let blocks = prefix.len() / PREFIX_WIDTH;
    let mut next = line;
    for j in 0..blocks {
        next = put_prefix_block(prefix, variables, j, text, next);
    }
    next
}

// Puts block j of a prefix.
fn put_prefix_block(
    prefix: &[u32],
    variables: &[u32],
    j: usize,
    text: &mut [u8],
    line: Line,
) -> Line
    requires prefix_width_in_bounds { (prefix_width * j + prefix_width ≤ length prefix.now) × (line.at ≤ last_line) }
    requires j_value { is_block_kind (get_or prefix.now (prefix_width * j) 0) ≡ true }
    requires j_in_bounds { get_or prefix.now (prefix_width * j + 1) 0 + get_or prefix.now (prefix_width * j + 2) 0 ≤ length variables.now }
    requires all_writable { AllWritable (block_at prefix.now variables.now j).variables }
    ensures goes { Goes text.old line
        (run_text (line_kind line) (block_at prefix.now variables.now j ∷ []))
        (run_kind (line_kind line) (block_at prefix.now variables.now j ∷ [])) text.new result }
    ensures at_bound { result.at ≤ line.at + 11 * length (block_at prefix.now variables.now j).variables }
{
    let word = PREFIX_WIDTH * j;
    let first = prefix[word + 1] as usize;
    let end = first + prefix[word + 2] as usize;
    let quantifier = Quantifier::of(prefix[word]);
    put_block(text, line, quantifier, &variables[first..end])
}

// Puts a block of this quantifier with these names.
fn put_block(text: &mut [u8], line: Line, quantifier: Quantifier, names: &[u32]) -> Line
    requires { (line.at ≤ last_line) × (length names.now ≤ last_line) × AllWritable names.now }
    ensures goes { Goes text.old line (added_text (line_kind line) (quantifier_kind quantifier) names.now)
        (kind_after (line_kind line) (quantifier_kind quantifier) names.now) text.new result }
    ensures at_bound { result.at ≤ line.at + 11 * length names.now }
{
    if names.is_empty() {
        return line;
    }
    let next = turn_line(text, line, quantifier);
    Line {
        at: put_names(text, next.at, names),
        quantifier: next.quantifier,
    }
}

// Puts names, each with a space behind it.
fn put_names(text: &mut [u8], at: usize, names: &[u32]) -> usize
    requires { (at ≤ last_line + 4) × (length names.now ≤ last_line) × AllWritable names.now }
    ensures loose { Loose text.old at (names_text names.now) text.new result }
    ensures upper_bound { result ≤ at + 7 * length names.now }
{
    let mut next = at;
    for name in names {
        next = qdimacs_words::put_name(text, next, *name);
    }
    next
}

// Puts the gates in an exists block.
fn put_gates(gates: Gates, text: &mut [u8], line: Line) -> Line
    requires { (gates.first ≤ gates.end) × (gates.end ≤ number_bound) × (line.at ≤ last_line) }
    ensures goes { Goes text.old line
        (added_text (line_kind line) 5 (numbers gates.first (gates.end - gates.first)))
        (kind_after (line_kind line) 5 (numbers gates.first (gates.end - gates.first))) text.new result }
    ensures at_bound { result.at ≤ line.at + 4 + 7 * (gates.end - gates.first) }
{
    let first = gates.first;
    let end = gates.end;
    if first == end {
        return line;
    }
    let start = turn_line(text, line, Quantifier::Exists);
    Line {
        at: put_numbers(text, start.at, first, end),
        quantifier: start.quantifier,
    }
}

// Puts the numbers from `first` up to `end`, each with a space behind it. No one function over an iterator does this
// and `put_names`: its contract would have to say which numbers come and how many, where a slice and a range say it.
fn put_numbers(text: &mut [u8], at: usize, first: u32, end: u32) -> usize
    requires { (first ≤ end) × (end ≤ number_bound) × (at ≤ last_line + 4) }
    ensures loose { Loose text.old at (names_text (numbers first (end - first))) text.new result }
    ensures upper_bound { result ≤ at + 7 * (end - first) }
{
    let mut next = at;
    for x in first..end {
        next = qdimacs_words::put_name(text, next, x);
    }
    next
}

// Writing a prenex form as a QDIMACS text.
#![tactic(auto)]

ghost use Rattle.std.specs.Prelude.{[], ◌∷◌, ◌++◌, ◌≡◌, ℕ, ◌+◌, ◌<◌, ◌≤◌, length, get_or};
ghost use Rattle.lists.specs.Members.{maximum};
ghost use Rattle.formula.specs.Truth.{digit};
ghost use Rattle.formula.specs.Form.{blocks_of, binds};
ghost use Rattle.form_check.specs.Accepted.{AcceptedForm, prefix_names};
ghost use Rattle.form_texts.specs.Writing.{after};
ghost use Rattle.texts.specs.Numerals.{digits};
ghost use Rattle.texts.specs.Bounds.{number_bound};
ghost use Rattle.texts.specs.Put.{Put};
ghost use Rattle.qdimacs_form.specs.Clauses.{clauses_text};
ghost use Rattle.qdimacs_writer.specs.Writing.{write_outcome, ClausesWritten, RoomSuffices, Outlined};

use form_check::{NAMES, NODES};
use form_texts::Answer;
use qdimacs_prefix::Gates;
use refusals::{ACCEPTED, BUFFER_TOO_SHORT};

// Writes a form as a QDIMACS text, or refuses it by 14 or 15, or the buffer by 9.
//
// The contract rules out a writer that numbers gates from the prefix's names alone, one that refuses a short
// buffer before the form's prefix is looked at, and one that writes bytes before the room is known.
pub fn write(nodes: &[u32], prefix: &[u32], variables: &[u32], text: &mut [u8]) -> Answer
    ensures outcome { after result text.new
        ≡ write_outcome nodes.now prefix.now variables.now text.old }
    ensures written { ClausesWritten nodes.now prefix.now variables.now (after result text.new) }
    ensures room { RoomSuffices nodes.now prefix.now variables.now text.old
        (after result text.new) }
{
    let mut names = [0u8; NAMES];
    match form_check::check(nodes, prefix, variables, &mut names) {
        Ok(highest) => write_accepted(nodes, prefix, variables, &mut names, highest, text),
        Err(fault) => form_texts::refused(fault),
    }
}

// What is found of a form before its text is put: the highest free name, the first gate's variable, the number
// after the last gate's, and how many clauses there are.
#[derive(Clone, Copy)]
struct Outline {
    highest: u32,
    first: u32,
    next: u32,
    clauses: u32,
}

// The same of a form that is not refused. `names` holds which names the prefix binds, and `highest` is the
// highest of them.
fn write_accepted(
    nodes: &[u32],
    prefix: &[u32],
    variables: &[u32],
    names: &mut [u8],
    highest: u32,
    text: &mut [u8],
) -> Answer
    requires accepted_form { AcceptedForm nodes.now prefix.now variables.now }
    requires names_len { (length names.old ≡ 77824)
        × ((x : ℕ) → get_or names.old x 0 ≡ digit (binds (blocks_of prefix.now variables.now) x)) }
    requires highest_value { highest ≡ maximum (prefix_names (blocks_of prefix.now variables.now)) }
    ensures { after result text.new
        ≡ write_outcome nodes.now prefix.now variables.now text.old }
{
    let mut words = [0u64; NODES];
    let last = qdimacs_numbers::flag_free(nodes, names);
    let first = 1 + form_check::higher(last, highest);
    let numbering = qdimacs_numbers::number_nodes(nodes, first, &mut words);
    let outline = Outline {
        highest: last,
        first,
        next: numbering.next,
        clauses: numbering.clauses,
    };
    write_lines(nodes, prefix, variables, names, &words, outline, text)
}

// The same with the form's outline at hand: the lines are counted, and written if there is room.
fn write_lines(
    nodes: &[u32],
    prefix: &[u32],
    variables: &[u32],
    names: &[u8],
    words: &[u64],
    outline: Outline,
    text: &mut [u8],
) -> Answer
    requires { Outlined nodes.now prefix.now variables.now names.now words.now outline }
    ensures { after result text.new
        ≡ write_outcome nodes.now prefix.now variables.now text.old }
{
    let none = &mut text[..0];
    let bytes = put_text(nodes, prefix, variables, names, words, outline, none);
    if text.len() < bytes {
        return Answer {
            number: BUFFER_TOO_SHORT,
            position: 0,
            bytes: 0,
        };
    }
    put_text(nodes, prefix, variables, names, words, outline, text);
    Answer {
        number: ACCEPTED,
        position: 0,
        bytes,
    }
}

// Puts the text of a form: header, quantifier lines, clauses.
fn put_text(
    nodes: &[u32],
    prefix: &[u32],
    variables: &[u32],
    names: &[u8],
    words: &[u64],
    outline: Outline,
    text: &mut [u8],
) -> usize
    requires { Outlined nodes.now prefix.now variables.now names.now words.now outline }
    ensures { Put text.old 0
        (clauses_text nodes.now prefix.now variables.now) text.new result }
{
    let mut next = put_header(text, outline.next - 1, outline.clauses);
    let gates = Gates {
        first: outline.first,
        end: outline.next,
    };
    next = qdimacs_prefix::put_blocks(prefix, variables, names, outline.highest, gates, text, next);
    next = qdimacs_clauses::put_gates(nodes, words, text, next);
    qdimacs_clauses::put_root(nodes, words, text, next)
}

// Puts the header line: the highest variable and the number of clauses.
fn put_header(text: &mut [u8], highest: u32, clauses: u32) -> usize
    requires { (highest < number_bound) × (clauses < number_bound) }
    ensures put { Put text.old 0
        (112 ∷ 32 ∷ 99 ∷ 110 ∷ 102 ∷ 32 ∷ (digits highest ++ (32 ∷ (digits clauses ++ (10 ∷ [])))))
        text.new result }
    ensures upper_bound { result ≤ 20 }
{
    let mut next = texts::put_word(text, 0, b"p cnf ");
    next = texts::put_number(text, next, highest);
    next = texts::put_word(text, next, b" ");
    next = texts::put_number(text, next, clauses);
    texts::put_word(text, next, b"\n")
}

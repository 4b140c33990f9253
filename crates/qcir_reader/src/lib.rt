// Reads QCIR texts into formula tables: a public operation.
#![tactic(auto)]

ghost use Rattle.std.specs.Prelude.{[], ◌≡◌, ◌≤◌, length};
ghost use Rattle.qcir.specs.File.{File};
ghost use Rattle.qcir.specs.Refusals.{misplaced, not_used_once, unbound};
ghost use Rattle.qcir.specs.FromText.{limits, name_verdict};
ghost use Rattle.qcir.specs.Reading.{
  buffers,
  none_written,
  file_outcome,
  table_outcome,
  Reading,
  Only,
  TableWritten,
};
ghost use Rattle.refusals.specs.Outcome.{refused as refused_of};
ghost use Rattle.qcir_tokens.specs.Held.{HoldsFile, HoldsNames, DefinitionsIn, found_of};
ghost use Rattle.qcir_header.specs.Header.{header_end};
ghost use Rattle.qcir_reader.specs.Reads.{answer_of, after, Reads};

use acceptance::LIMIT;
use qcir_tokens::{NUMBERS, TOKENS, Tokens};
use refusals::{
    ACCEPTED, BUFFER_TOO_SHORT, GATE_NOT_USED_ONCE, MISPLACED_NAME, MISSPELLED, TOO_LARGE,
    TOO_MANY_VARIABLES, UNBOUND_VARIABLE, Verdict, accepted, refusal,
};

// The most bytes of a text.
const BYTES: usize = 65536;

// The verdict (number 0: done), and the words and list entries written.
#[derive(Clone, Copy)]
pub struct Answer {
    pub verdict: Verdict,
    pub words: u32,
    pub entries: u32,
}

// Where a reader begins.
const START: usize = 0;

// A text and a position in it.
#[derive(Clone, Copy)]
struct Reader<'a> {
    text: &'a [u8],
    at: usize,
}

// A reader at a text's start.
//
// The contract rules out one at the second byte.
fn begin<'a>(text: &'a [u8]) -> Reader<'a>
    ensures { (result.text ≡ text.entry) × (result.at ≡ 0) }
{
    Reader { text, at: START }
}

// The reader after the header; where the text has none, at the first byte that differs, or at the text's end.
fn skip_header<'a>(r: Reader<'a>) -> Reader<'a>
    ensures { (result.text ≡ r.entry.text)
        × (result.at ≡ header_end r.entry.text.now r.entry.at) }
{
    let at = qcir_header::header_end(r.text, r.at);
    Reader { text: r.text, at }
}

// Reads a QCIR text into a formula table: its nodes to the start of `words`, its list to the start of
// `list`.
//
// The contract rules out a reader that judges variables before gates (12 before 13), and one that
// touches a buffer though it refuses the file.
pub fn read(text: &[u8], words: &mut [u32], list: &mut [u32]) -> Answer
    ensures reading { Reading limits text.now (buffers words.old list.old)
        (after result (buffers words.new list.new)) }
    ensures only { Only limits text.now (buffers words.old list.old)
        (after result (buffers words.new list.new)) }
    ensures table { TableWritten limits.names text.now
        (after result (buffers words.new list.new)) }
{
    let start = begin(text);
    let lines = skip_header(start);
    read_lines(lines, words, list)
}

// Reads on from the end of what the text has of the header.
fn read_lines<'a>(r: Reader<'a>, words: &mut [u32], list: &mut [u32]) -> Answer
    requires { r.at ≡ header_end r.text.now 0 }
    ensures { Reads r.entry.text.now words.old list.old
        words.new list.new result }
{
    read_from(r.text, r.at, words, list)
}

// Reads the lines of a text whose header ends at `at`; whether the header is whole is seen by where it
// ends.
fn read_from(text: &[u8], at: usize, words: &mut [u32], list: &mut [u32]) -> Answer
    requires { at ≡ header_end text.now 0 }
    ensures { Reads text.now words.old list.old
        words.new list.new result }
{
    if BYTES < text.len() {
        return refused(refusal(MISSPELLED, 0));
    }
    read_spelled(text, at, words, list)
}

// A verdict that refuses is handed on whole.
fn refused(verdict: Verdict) -> Answer
    ensures { answer_of result ≡ refused_of verdict none_written }
{
    Answer {
        verdict,
        words: 0,
        entries: 0,
    }
}

// Reads a text that is not too long.
fn read_spelled(text: &[u8], at: usize, words: &mut [u32], list: &mut [u32]) -> Answer
    requires text_len_bound { length text.now ≤ 65536 }
    requires at_value { at ≡ header_end text.now 0 }
    ensures { Reads text.now words.old list.old
        words.new list.new result }
{
    let mut roles = [0u8; TOKENS];
    let mut numbers = [0u16; TOKENS];
    let mut positions = [0u16; TOKENS];
    match qcir_scan::scan(text, at, &mut roles, &mut numbers, &mut positions) {
        Ok(count) => {
            let tokens = Tokens {
                roles: &roles,
                numbers: &numbers,
                positions: &positions,
                count,
            };
            read_tokens(&tokens, words, list)
        }
        Err(position) => refused(refusal(MISSPELLED, position)),
    }
}

// Reads the tokens of a file: refusals 11, 13 and 12, then its table.
fn read_tokens(tokens: &Tokens, words: &mut [u32], list: &mut [u32]) -> Answer
    requires { (f : File) × HoldsFile tokens.now.roles.now tokens.now.numbers.now tokens.now.positions.now tokens.now.count f }
    ensures { (f : File) → HoldsFile tokens.now.roles.now tokens.now.numbers.now tokens.now.positions.now tokens.now.count f
        → after result (buffers words.new list.new)
        ≡ file_outcome limits f (buffers words.old list.old) }
{
    let mut gates = [0u16; NUMBERS];
    qcir_gates::mark_gates(tokens, &mut gates);
    let verdict = judge_names(tokens, &gates);
    if ACCEPTED < verdict.number {
        return refused(verdict);
    }
    store_table(tokens, &gates, words, list)
}

// The verdict on the names of a file.
fn judge_names(tokens: &Tokens, gates: &[u16]) -> Verdict
    requires holds_file { (f : File) × HoldsFile tokens.now.roles.now tokens.now.numbers.now tokens.now.positions.now tokens.now.count f }
    requires definitions_in { DefinitionsIn tokens.now.roles.now tokens.now.numbers.now tokens.now.count gates.now }
    ensures { (f : File) → HoldsFile tokens.now.roles.now tokens.now.numbers.now tokens.now.positions.now tokens.now.count f
        → result ≡ name_verdict f }
{
    let place = qcir_misplaced::first_misplaced(tokens, gates);
    let gate = qcir_gates::lowest_misused(tokens);
    let variable = qcir_unbound::lowest_unbound(tokens, gates);
    name_verdict(place, gate, variable)
}

// The first of refusals 11, 13 and 12 that applies: a misplaced name, a gate not used exactly once, an
// unbound variable, of which the last is known only where the others do not apply.
fn name_verdict(place: Option<u32>, gate: Option<u32>, variable: Option<u32>) -> Verdict
    ensures { (f : File) → place ≡ found_of (misplaced f)
        → gate ≡ found_of (not_used_once f)
        → (misplaced f ≡ [] → not_used_once f ≡ [] → variable ≡ found_of (unbound f))
        → result ≡ name_verdict f }
{
    if let Some(position) = place {
        return refusal(MISPLACED_NAME, position);
    }
    if let Some(number) = gate {
        return refusal(GATE_NOT_USED_ONCE, number);
    }
    if let Some(number) = variable {
        return refusal(UNBOUND_VARIABLE, number);
    }
    accepted()
}

// Refusals 2, 6 and 9; nothing is written before all are decided.
fn store_table(tokens: &Tokens, gates: &[u16], words: &mut [u32], list: &mut [u32]) -> Answer
    requires holds_names { (f : File) × HoldsNames tokens.now.roles.now tokens.now.numbers.now tokens.now.count f }
    requires definitions_in { DefinitionsIn tokens.now.roles.now tokens.now.numbers.now tokens.now.count gates.now }
    ensures { (f : File) → HoldsNames tokens.now.roles.now tokens.now.numbers.now tokens.now.count f
        → after result (buffers words.new list.new)
        ≡ table_outcome limits f (buffers words.old list.old) }
{
    let sizes = qcir_table_sizes::table_sizes(tokens, gates);
    let nodes = sizes.nodes;
    if (LIMIT as u32) < nodes {
        return refused(refusal(TOO_LARGE, 0));
    }
    if let Some(block) = sizes.excess {
        return refused(refusal(TOO_MANY_VARIABLES, block));
    }
    let length = (formula::WIDTH as u32) * nodes;
    let entries = sizes.entries;
    if words.len() < length as usize {
        return refused(refusal(BUFFER_TOO_SHORT, 0));
    }
    if list.len() < entries as usize {
        return refused(refusal(BUFFER_TOO_SHORT, 0));
    }
    qcir_table::write_table(tokens, words, list);
    Answer {
        verdict: accepted(),
        words: length,
        entries,
    }
}

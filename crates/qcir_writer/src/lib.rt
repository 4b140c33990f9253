// Writing a prenex form as a QCIR text.
#![tactic(auto)]

ghost use Rattle.std.specs.Prelude.{[], ◌≡◌, ℕ, length, get_or};
ghost use Rattle.lists.specs.Members.{maximum};
ghost use Rattle.formula.specs.Truth.{digit};
ghost use Rattle.formula.specs.Words.{table_of};
ghost use Rattle.formula.specs.Form.{blocks_of, binds};
ghost use Rattle.form_check.specs.Accepted.{AcceptedForm, prefix_names};
ghost use Rattle.qcir_form.specs.File.{free_names, prefix_lines, first_gate};
ghost use Rattle.qcir_literals.specs.Literals.{Filled};
ghost use Rattle.name_flags.specs.Flags.{FreeFlags};
ghost use Rattle.qcir_lines.specs.Lines.{is_free};
ghost use Rattle.form_texts.specs.Writing.{after};
ghost use Rattle.qcir_writer.specs.Writing.{
  write_outcome,
  TextWritten,
  RoomSuffices,
};

use form_check::{NAMES, NODES};
use form_texts::Answer;
use refusals::{ACCEPTED, BUFFER_TOO_SHORT};

// Writes a form as a QCIR text, or refuses it by 14 or 15, or the buffer by 9.
//
// The contract rules out a writer whose gates are numbered by the matrix's names alone, one that writes
// bytes before the room is known, and one that takes a buffer a byte too short.
pub fn write(nodes: &[u32], prefix: &[u32], variables: &[u32], text: &mut [u8]) -> Answer
    ensures outcome { after result text.new
        ≡ write_outcome nodes.now prefix.now variables.now text.old }
    ensures written { TextWritten nodes.now prefix.now variables.now (after result text.new) }
    ensures room { RoomSuffices nodes.now prefix.now variables.now text.old
        (after result text.new) }
{
    let mut names = [0u8; NAMES];
    match form_check::check(nodes, prefix, variables, &mut names) {
        Ok(highest) => write_accepted(nodes, prefix, variables, &mut names, highest, text),
        Err(fault) => form_texts::refused(fault),
    }
}

// The same of a form that is not refused. `names` holds which names the prefix binds, and `highest` is
// the highest of them.
fn write_accepted(
    nodes: &[u32],
    prefix: &[u32],
    variables: &[u32],
    names: &mut [u8],
    highest: u32,
    text: &mut [u8],
) -> Answer
    requires accepted_form { AcceptedForm nodes.now prefix.now variables.now }
    requires names_len { (length names.old ≡ 77824)
        × ((x : ℕ) → get_or names.old x 0 ≡ digit (binds (blocks_of prefix.now variables.now) x)) }
    requires highest_value { highest ≡ maximum (prefix_names (blocks_of prefix.now variables.now)) }
    ensures { after result text.new
        ≡ write_outcome nodes.now prefix.now variables.now text.old }
{
    let mut literals = [0u32; NODES];
    let last = qcir_marks::mark_written(nodes, &mut literals, names);
    qcir_literals::fill_literals(nodes, &mut literals, 1 + last.max(highest));
    write_lines(nodes, prefix, variables, names, last, &literals, text)
}

// The same with the literal of each node at hand: the lines are counted, and written if there is room.
fn write_lines(
    nodes: &[u32],
    prefix: &[u32],
    variables: &[u32],
    names: &[u8],
    last: u32,
    literals: &[u32],
    text: &mut [u8],
) -> Answer
    requires accepted_form { AcceptedForm nodes.now prefix.now variables.now }
    requires free_flags { FreeFlags (is_free (table_of nodes.now []) (blocks_of prefix.now variables.now)) names.now last }
    requires filled { Filled (table_of nodes.now [])
        (first_gate (free_names (table_of nodes.now []) (blocks_of prefix.now variables.now))
        (prefix_lines (blocks_of prefix.now variables.now))) literals.now }
    requires literals_len { length literals.now ≡ 40960 }
    ensures { after result text.new
        ≡ write_outcome nodes.now prefix.now variables.now text.old }
{
    let none = &mut text[..0];
    let bytes = qcir_lines::put_text(nodes, prefix, variables, names, last, literals, none);
    if text.len() < bytes {
        return Answer {
            number: BUFFER_TOO_SHORT,
            position: 0,
            bytes: 0,
        };
    }
    qcir_lines::put_text(nodes, prefix, variables, names, last, literals, text);
    Answer {
        number: ACCEPTED,
        position: 0,
        bytes,
    }
}

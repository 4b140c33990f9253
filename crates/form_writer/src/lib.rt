// Writing a prenex form as a text, in the format that the caller names.
#![tactic(auto)]

ghost use Rattle.std.specs.Prelude.{◌≡◌};
ghost use Rattle.form_check.specs.Verdict.{form_verdict};
ghost use Rattle.form_texts.specs.Writing.{after, text_outcome};
ghost use Rattle.form_writer.specs.Formats.{text_as};

use form_texts::Answer;

// The formats of a text.
#[derive(Clone, Copy)]
pub enum Format {
    Qcir,
    Qdimacs,
}

// Writes a form in a format: 14, 15 and 9, or the text at the buffer's start.
//
// The contract rules out a call that writes QDIMACS where QCIR is asked for, and one that takes the list
// for the prefix.
pub fn write(
    nodes: &[u32],
    prefix: &[u32],
    variables: &[u32],
    format: Format,
    out: &mut [u8],
) -> Answer
    ensures { after result out.new
        ≡ text_outcome (form_verdict nodes.now prefix.now variables.now)
        (text_as format nodes.now prefix.now variables.now)
        out.old }
{
    match format {
        Format::Qcir => qcir_writer::write(nodes, prefix, variables, out),
        Format::Qdimacs => qdimacs_writer::write(nodes, prefix, variables, out),
    }
}

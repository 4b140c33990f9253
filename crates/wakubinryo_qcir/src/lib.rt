// The C interface of files: reading QCIR, and writing QCIR and QDIMACS, under their C names.
// include/wakubinryo.h says the promises in words.
#![tactic(auto)]

ghost use Rattle.std.specs.Prelude.{◌≡◌};
ghost use Rattle.refusals.specs.Verdict.{Plain};
ghost use Rattle.qcir.specs.FromText.{limits};
ghost use Rattle.qcir.specs.Reading.{buffers, Reading, Only, TableWritten};
ghost use Rattle.qcir_reader.specs.Reads.{answer_of};
ghost use Rattle.form_texts.specs.Words.{said_outcome};
ghost use Rattle.qcir_writer.specs.Writing.{write_outcome, TextWritten, RoomSuffices};
ghost use Rattle.qdimacs_writer.specs.Writing as clauses;
ghost use Rattle.wakubinryo_qcir.specs.Words.{written_answer, read_outcome};

use qcir_reader::Answer;

// Reads a QCIR text into a formula table: number, position, words and list entries written.
//
// The contract rules out an answer whose sizes are exchanged, and a reading with the two buffers
// exchanged.
#[unsafe(no_mangle)]
pub extern "C" fn wakubinryo_read_qcir(
    text: &[u8],
    words: &mut [u32],
    list: &mut [u32],
    answer: &mut [u32; 4],
)
    ensures reading { Reading limits text.now (buffers words.old list.old)
        (read_outcome answer.new (buffers words.new list.new)) }
    ensures only { Only limits text.now (buffers words.old list.old)
        (read_outcome answer.new (buffers words.new list.new)) }
    ensures table { TableWritten limits.names text.now
        (read_outcome answer.new (buffers words.new list.new)) }
{
    put_answer(answer, qcir_reader::read(text, words, list));
}

fn put_answer(answer: &mut [u32; 4], a: Answer)
    requires { Plain a.verdict }
    ensures { written_answer answer.new ≡ answer_of a }
{
    let v = a.verdict;
    *answer = [v.number, v.position, a.words, a.entries];
}

// Writes a prenex form as a QCIR text: number, position and bytes written.
//
// The contract rules out an answer whose position and bytes are exchanged, and a writing that takes the
// prefix for the list.
#[unsafe(no_mangle)]
pub extern "C" fn wakubinryo_write_qcir(
    nodes: &[u32],
    prefix: &[u32],
    variables: &[u32],
    text: &mut [u8],
    answer: &mut [u64; 3],
)
    ensures outcome { said_outcome answer.new text.new
        ≡ write_outcome nodes.now prefix.now variables.now text.old }
    ensures written { TextWritten nodes.now prefix.now variables.now
        (said_outcome answer.new text.new) }
    ensures room { RoomSuffices nodes.now prefix.now variables.now text.old
        (said_outcome answer.new text.new) }
{
    form_texts::put_text_answer(answer, qcir_writer::write(nodes, prefix, variables, text));
}

// Writes a prenex form as a QDIMACS text: number, position and bytes written.
//
// The contract rules out a call that writes QCIR, and a writing that takes the list for the prefix.
#[unsafe(no_mangle)]
pub extern "C" fn wakubinryo_write_qdimacs(
    nodes: &[u32],
    prefix: &[u32],
    variables: &[u32],
    text: &mut [u8],
    answer: &mut [u64; 3],
)
    ensures outcome { said_outcome answer.new text.new
        ≡ clauses.write_outcome nodes.now prefix.now variables.now text.old }
    ensures written { clauses.ClausesWritten nodes.now prefix.now variables.now
        (said_outcome answer.new text.new) }
    ensures room { clauses.RoomSuffices nodes.now prefix.now variables.now text.old
        (said_outcome answer.new text.new) }
{
    form_texts::put_text_answer(
        answer,
        qdimacs_writer::write(nodes, prefix, variables, text),
    );
}

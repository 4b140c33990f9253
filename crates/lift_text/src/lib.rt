// From the bytes of a QCIR file to the bytes of its prenex form, QCIR or QDIMACS; and the sizes of both.
#![tactic(auto)]

ghost use Rattle.std.specs.Prelude.{◌≡◌};
ghost use Rattle.refusals.specs.Verdict.{accepted};
ghost use Rattle.acceptance.specs.Verdict.{verdict};
ghost use Rattle.prenex.specs.Outcome.{answer_of as sizes_of};
ghost use Rattle.lift_text.specs.Lifting.{after, written_as, LiftsText};
ghost use Rattle.lift_text.specs.Memory.{lent, after_in, written_in, LiftsTextIn};
ghost use Rattle.lift_text.specs.Measuring.{MeasuresText};

use acceptance::LIMIT;
use form_writer::Format;
use formula::WIDTH;
use prefix_writer::PREFIX_WIDTH;
use prenex::Answer as Measure;
use refusals::{ACCEPTED, MEMORY_TOO_SHORT};
use text_answers::Answer;

// The most nodes, prefix blocks and prefix variables of a prenex form.
const NODES: usize = 10 * LIMIT;

const BLOCKS: usize = LIMIT + 1;

const ENTRIES: usize = 3 * LIMIT;

// Few bound variables, and enough nodes for the form of a table that binds no more: n + 5 b + 4 q, with
// at most as many blocks as bound variables.
const FEW_BOUND: usize = 896;

const SMALL_FORM: usize = 3 * LIMIT;

// Room for the text of every prenex form: as QDIMACS, which takes more than QCIR.
pub const TEXT: usize = 64 * (NODES + 1) + 4 * BLOCKS + 6 * ENTRIES;

// Reads a QCIR text, lifts its table and writes the prenex form as a text; or refuses the text as reading
// does, or the buffer by 9.
//
// The contract rules out a call that takes the list of the table for its words, and one that hands on
// words beyond those of the form's nodes.
pub fn lift_text(text: &[u8], format: Format, out: &mut [u8]) -> Answer
    ensures { LiftsText format text.now out.old (after result out.new) }
{
    let mut words = [0u32; WIDTH * LIMIT];
    let mut list = [0u32; LIMIT];
    let read = qcir_reader::read(text, &mut words, &mut list);
    let verdict = read.verdict;
    if verdict.number != ACCEPTED {
        return text_answers::refused(verdict);
    }
    let n = read.words as usize;
    let m = read.entries as usize;
    lift_table(&words[..n], &list[..m], format, out)
}

// The same with lent memory for the form's nodes, for callers with a small stack; 24 if that is too
// short.
//
// The contract rules out a call that answers done where the text has no room, and one that answers
// another number of bytes than it wrote.
pub fn lift_text_in(text: &[u8], format: Format, nodes: &mut [u32], out: &mut [u8]) -> Answer
    ensures { LiftsTextIn format text.now (lent nodes.old out.old)
        (after_in result (lent nodes.new out.new)) }
{
    let mut words = [0u32; WIDTH * LIMIT];
    let mut list = [0u32; LIMIT];
    let read = qcir_reader::read(text, &mut words, &mut list);
    let verdict = read.verdict;
    if verdict.number != ACCEPTED {
        return text_answers::refused(verdict);
    }
    let n = read.words as usize;
    let m = read.entries as usize;
    lift_table_in(&words[..n], &list[..m], format, nodes, out)
}

// Lifts a table that was read and writes its form, in memory of its own: in less of it where few
// variables are bound, since clearing it is much of what a small text costs.
fn lift_table(words: &[u32], list: &[u32], format: Format, out: &mut [u8]) -> Answer
    requires { verdict words.now list.now ≡ accepted }
    ensures { after result out.new
        ≡ written_as format out.old words.now list.now }
{
    if FEW_BOUND < list.len() {
        return lift_large(words, list, format, out);
    }
    let answer = lift_small(words, list, format, out);
    let verdict = answer.verdict;
    if verdict.number != MEMORY_TOO_SHORT {
        return answer;
    }
    lift_large(words, list, format, out)
}

// In memory for a small form's nodes; 24 if it is none.
fn lift_small(words: &[u32], list: &[u32], format: Format, out: &mut [u8]) -> Answer
    requires { verdict words.now list.now ≡ accepted }
    ensures done { (result.verdict.number ≡ 24 → ⊥) → after result out.new
        ≡ written_as format out.old words.now list.now }
    ensures short { result.verdict.number ≡ 24 → out.new ≡ out.old }
{
    let mut nodes = [0u32; WIDTH * SMALL_FORM];
    lift_table_in(words, list, format, &mut nodes, out)
}

// In memory for every form's nodes.
fn lift_large(words: &[u32], list: &[u32], format: Format, out: &mut [u8]) -> Answer
    requires { verdict words.now list.now ≡ accepted }
    ensures { after result out.new
        ≡ written_as format out.old words.now list.now }
{
    let mut nodes = [0u32; WIDTH * NODES];
    lift_table_in(words, list, format, &mut nodes, out)
}

// In lent memory for the form's nodes. Several functions call this, so that the compiler keeps it out of
// line: its arrays and those of reading then take the same stack.
fn lift_table_in(
    words: &[u32],
    list: &[u32],
    format: Format,
    nodes: &mut [u32],
    out: &mut [u8],
) -> Answer
    requires { verdict words.now list.now ≡ accepted }
    ensures { after_in result (lent nodes.new out.new)
        ≡ written_in format (lent nodes.old out.old)
        words.now list.now }
{
    let mut prefix = [0u32; PREFIX_WIDTH * BLOCKS];
    let mut variables = [0u32; ENTRIES];
    let lifted = prenex::lift_accepted(words, list, nodes, &mut prefix, &mut variables);
    let verdict = lifted.verdict;
    if verdict.number != ACCEPTED {
        return text_answers::refused(refusals::refusal(MEMORY_TOO_SHORT, 0));
    }
    let sizes = lifted.sizes;
    let n = WIDTH * (sizes.nodes as usize);
    let b = PREFIX_WIDTH * (sizes.blocks as usize);
    let e = sizes.entries as usize;
    let written = form_writer::write(&nodes[..n], &prefix[..b], &variables[..e], format, out);
    text_answers::of_writing(written, sizes)
}

// Reads a QCIR text and measures its table; or refuses the text as reading does.
//
// The contract rules out a measure with list entries beyond those of the table, and one that refuses a
// misspelled text by another number than reading does.
pub fn measure_text(text: &[u8]) -> Measure
    ensures { MeasuresText text.now (sizes_of result) }
{
    let mut words = [0u32; WIDTH * LIMIT];
    let mut list = [0u32; LIMIT];
    let read = qcir_reader::read(text, &mut words, &mut list);
    let verdict = read.verdict;
    if verdict.number != ACCEPTED {
        return prenex::refused(verdict);
    }
    let n = read.words as usize;
    let m = read.entries as usize;
    prenex::measure(&words[..n], &list[..m])
}

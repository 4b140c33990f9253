// What the calls from a text answer: made, and put into C's words.
#![tactic(auto)]

ghost use Rattle.std.specs.Prelude.{◌≡◌};
ghost use Rattle.refusals.specs.Verdict.{refusal, Plain};
ghost use Rattle.refusals.specs.Outcome.{refused as refused_of};
ghost use Rattle.prenex.specs.Outcome.{answer_of as sizes_of};
ghost use Rattle.text_answers.specs.Answers.{no_text_sizes, answer_of, of_writing};
ghost use Rattle.text_answers.specs.Words.{lift_answer, measure_answer};
ghost use Rattle.text_answers.specs.Formats.{Numbers};

use form_texts::Answer as Writing;
use form_writer::Format;
use prenex::Answer as Measure;
use prenex_form::Sizes;
use refusals::{ACCEPTED, BUFFER_TOO_SHORT, UNKNOWN_FORMAT, Verdict};

// The numbers of the formats.
const QCIR: u32 = 1;

const QDIMACS: u32 = 2;

// The verdict, the bytes written, and the sizes of the table that was read and of its prenex form.
#[derive(Clone, Copy)]
pub struct Answer {
    pub verdict: Verdict,
    pub bytes: usize,
    pub sizes: Sizes,
}

// A refusal handed on, with sizes of 0.
pub fn refused(verdict: Verdict) -> Answer
    ensures { answer_of result ≡ refused_of verdict no_text_sizes }
{
    let measured = prenex::refused(verdict);
    let sizes = measured.sizes;
    Answer {
        verdict,
        bytes: 0,
        sizes,
    }
}

// The answer where the form of a table with these sizes was written, or had no room.
pub fn of_writing(written: Writing, sizes: Sizes) -> Answer
    ensures { answer_of result ≡ of_writing written sizes }
{
    if written.number != ACCEPTED {
        return refused(refusals::refusal(BUFFER_TOO_SHORT, 0));
    }
    let verdict = refusals::accepted();
    Answer {
        verdict,
        bytes: written.bytes,
        sizes,
    }
}

// The format with this number, if there is one.
pub fn format_of(number: u32) -> Option<Format>
    ensures { Numbers number result }
{
    match number {
        QCIR => Some(Format::Qcir),
        QDIMACS => Some(Format::Qdimacs),
        _ => None,
    }
}

// The answer to a number that no format has.
pub fn unknown_format() -> Answer
    ensures { answer_of result ≡ record { verdict = refusal 23 0; sizes = no_text_sizes } }
{
    refused(refusals::refusal(UNKNOWN_FORMAT, 0))
}

// C's ten words: number, position, bytes written and the seven sizes.
pub fn put_lift(answer: &mut [u64; 10], a: Answer)
    requires { Plain a.verdict }
    ensures { lift_answer answer.new ≡ answer_of a }
{
    let v = a.verdict;
    let s = a.sizes;
    *answer = [
        v.number as u64,
        v.position as u64,
        a.bytes as u64,
        s.n as u64,
        s.b as u64,
        s.q as u64,
        s.depth as u64,
        s.nodes as u64,
        s.blocks as u64,
        s.entries as u64,
    ];
}

// C's nine words: number, position and the seven sizes.
pub fn put_measure(answer: &mut [u32; 9], a: Measure)
    requires { Plain a.verdict }
    ensures { measure_answer answer.new ≡ sizes_of a }
{
    let v = a.verdict;
    let s = a.sizes;
    *answer = [
        v.number, v.position, s.n, s.b, s.q, s.depth, s.nodes, s.blocks, s.entries,
    ];
}

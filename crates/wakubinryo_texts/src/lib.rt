// The C interface from text to text: lifting and measuring QCIR texts, under C names.
// include/wakubinryo.h says each promise in words.
#![tactic(auto)]

ghost use Rattle.std.specs.Prelude.{◌≡◌};
ghost use Rattle.refusals.specs.Verdict.{refusal};
ghost use Rattle.qcir.specs.FromText.{refused_text};
ghost use Rattle.text_answers.specs.Answers.{no_text_sizes};
ghost use Rattle.lift_text.specs.Lifting.{LiftsText};
ghost use Rattle.lift_text.specs.Memory.{lent, LiftsTextIn};
ghost use Rattle.lift_text.specs.Measuring.{MeasuresText};
ghost use Rattle.text_answers.specs.Words.{measure_answer, outcome_of};
ghost use Rattle.text_answers.specs.Formats.{InFormat};

// Lifts a QCIR text to a text: number, position, bytes written and the seven sizes. A number that names
// no format is refused by 23.
//
// The contract rules out an answer that loses a refusal's position, and a call that takes the number of
// QDIMACS for QCIR's.
#[unsafe(no_mangle)]
pub extern "C" fn wakubinryo_lift_text(
    text: &[u8],
    format: u32,
    out: &mut [u8],
    answer: &mut [u64; 10],
)
    ensures { InFormat format
        (λ f. LiftsText f text.now out.old (outcome_of answer.new out.new))
        (outcome_of answer.new out.new ≡ refused_text no_text_sizes out.old (refusal 23 0)) }
{
    let asked = text_answers::format_of(format);
    match asked {
        Some(f) => text_answers::put_lift(answer, lift_text::lift_text(text, f, out)),
        None => text_answers::put_lift(answer, text_answers::unknown_format()),
    }
}

// The same with lent memory for the form's nodes; 24 if that is too short.
//
// The contract rules out a call that refuses an unknown format by 1, and one that answers no bytes where
// it wrote some.
#[unsafe(no_mangle)]
pub extern "C" fn wakubinryo_lift_text_in(
    text: &[u8],
    format: u32,
    nodes: &mut [u32],
    out: &mut [u8],
    answer: &mut [u64; 10],
)
    ensures { InFormat format
        (λ f. LiftsTextIn f text.now (lent nodes.old out.old)
        (outcome_of answer.new (lent nodes.new out.new)))
        (outcome_of answer.new (lent nodes.new out.new)
        ≡ refused_text no_text_sizes (lent nodes.old out.old) (refusal 23 0)) }
{
    let asked = text_answers::format_of(format);
    match asked {
        Some(f) => text_answers::put_lift(answer, lift_text::lift_text_in(text, f, nodes, out)),
        None => text_answers::put_lift(answer, text_answers::unknown_format()),
    }
}

// Measures a QCIR text: number, position and the seven sizes.
//
// The contract rules out an answer whose sizes stand in another order, and one with a refusal's number
// in the place of its position.
#[unsafe(no_mangle)]
pub extern "C" fn wakubinryo_measure_text(text: &[u8], answer: &mut [u32; 9])
    ensures { MeasuresText text.now (measure_answer answer.new) }
{
    text_answers::put_measure(answer, lift_text::measure_text(text));
}

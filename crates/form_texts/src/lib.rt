// What writing a text answers and leaves, whatever the text: definitions in specs/, laws in proofs/.
#![tactic(auto)]

ghost use Rattle.std.specs.Prelude.{◌≡◌};
ghost use Rattle.refusals.specs.Outcome.{refused as refused_of};
ghost use Rattle.form_check.specs.Answer.{refusal_of};
ghost use Rattle.form_texts.specs.Writing.{answer_of};
ghost use Rattle.form_texts.specs.Words.{text_answer};

use form_check::Malformed;
use refusals::{MALFORMED_MATRIX, MALFORMED_PREFIX};

// The number of a refusal (0: done), its node or block, and the bytes written.
#[derive(Clone, Copy)]
pub struct Answer {
    pub number: u32,
    pub position: u64,
    pub bytes: usize,
}

// The answer where the form is refused: nothing is written.
pub fn refused(fault: Malformed) -> Answer
    ensures { answer_of result ≡ refused_of (refusal_of fault) 0 }
{
    match fault {
        Malformed::Matrix(node) => Answer {
            number: MALFORMED_MATRIX,
            position: node as u64,
            bytes: 0,
        },
        Malformed::Prefix(block) => Answer {
            number: MALFORMED_PREFIX,
            position: block as u64,
            bytes: 0,
        },
    }
}

// C's three words: number, position and bytes written.
pub fn put_text_answer(answer: &mut [u64; 3], a: Answer)
    ensures { text_answer answer.new ≡ answer_of a }
{
    *answer = [a.number as u64, a.position, a.bytes as u64];
}

// The line of figures that a growth report has for a QCIR text (request S-13).
#![tactic(auto)]

ghost use Rattle.std.specs.Prelude.{◌≡◌};
ghost use Rattle.prenex.specs.Outcome.{answer_of};
ghost use Rattle.file_line.specs.FileLine.{FileLine, line_of};

use growth::Line;
use prenex::Answer;

// The line of a text: the refusal's number or 0, and the sizes of its table and its prenex form.
//
// The contract rules out a line with the prefix's blocks in the place of its variables, and one with the
// table's nodes in the place of the form's.
pub fn line_of(text: &[u8]) -> Line
    ensures { FileLine text.now result }
{
    measured_line(lift_text::measure_text(text))
}

fn measured_line(a: Answer) -> Line
    ensures { result ≡ line_of (answer_of a) }
{
    let verdict = a.verdict;
    let sizes = a.sizes;
    Line {
        number: verdict.number,
        n: sizes.n,
        b: sizes.b,
        q: sizes.q,
        depth: sizes.depth,
        nodes: sizes.nodes,
        variables: sizes.entries,
    }
}

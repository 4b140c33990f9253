// The C interface of growth reports, under C names. include/wakubinryo.h says each promise in words.
#![tactic(auto)]

ghost use Rattle.std.specs.Prelude.{◌≤◌, ◌≡◌};
ghost use Rattle.refusals.specs.Verdict.{Plain};
ghost use Rattle.form_texts.specs.Words.{said_outcome};
ghost use Rattle.growth.specs.Totals.{answer_of, totalled};
ghost use Rattle.name_lines.specs.Names.{answer_of as names_of, counted, names as names_in};
ghost use Rattle.report_text.specs.Promise.{Reports};
ghost use Rattle.wakubinryo_reports.specs.Words.{names_answer, total_answer};

use growth::Answer;
use name_lines::Answer as Names;

// The totals of lines of seven figures: number, position, files read, files refused, the six sums, and the
// written and input nodes of the file that grew most.
//
// The contract rules out an answer with the sums of input and written nodes exchanged, and one with the
// input nodes of the file that grew most before its written ones.
#[unsafe(no_mangle)]
pub extern "C" fn wakubinryo_growth(lines: &[u32], answer: &mut [u64; 12])
    ensures { total_answer answer.new ≡ totalled lines.now }
{
    put_totals(answer, growth::total(lines));
}

fn put_totals(answer: &mut [u64; 12], a: Answer)
    requires { Plain a.verdict }
    ensures { total_answer answer.new ≡ answer_of a }
{
    let v = a.verdict;
    let t = a.totals;
    let most = t.most;
    *answer = [
        v.number as u64,
        v.position as u64,
        t.read,
        t.refused,
        t.n,
        t.b,
        t.q,
        t.depth,
        t.nodes,
        t.variables,
        most.written,
        most.input,
    ];
}

// How many names a text has, one a line: number, position and count.
//
// The contract rules out an answer with the count in the place of the position, and one that counts names
// which are refused.
#[unsafe(no_mangle)]
pub extern "C" fn wakubinryo_names(names: &[u8], answer: &mut [u32; 3])
    ensures { names_answer answer.new ≡ counted (names_in names.now) }
{
    put_names(answer, name_lines::check_names(names));
}

fn put_names(answer: &mut [u32; 3], a: Names)
    requires { Plain a.verdict × (a.count ≤ 256) }
    ensures { names_answer answer.new ≡ names_of a }
{
    let v = a.verdict;
    *answer = [v.number, v.position, a.count as u32];
}

// The report of names, one a line, with a line of seven figures for each: number, position and bytes
// written.
//
// The contract rules out a report that writes nothing, and an answer whose position and bytes are exchanged.
#[unsafe(no_mangle)]
pub extern "C" fn wakubinryo_report(
    names: &[u8],
    lines: &[u32],
    out: &mut [u8],
    answer: &mut [u64; 3],
)
    ensures { Reports names.now lines.now out.old
        (said_outcome answer.new out.new) }
{
    form_texts::put_text_answer(answer, report_text::report(names, lines, out));
}

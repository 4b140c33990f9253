// The totals of lines of figures (request S-13): files, sums, and the growth of the file that grew most.
#![tactic(auto)]

ghost use Rattle.std.specs.Prelude.{ℕ, ◌+◌, ◌*◌, ◌≤◌, ◌<◌, ◌≡◌, length};
ghost use Rattle.lists.specs.Parts.{overwrite};
ghost use Rattle.refusals.specs.Verdict.{refusal};
ghost use Rattle.refusals.specs.Outcome.{refused as refused_of};
ghost use Rattle.growth.specs.Lines.{
  line_width,
  refused_line,
  line_at,
  line_figures,
};
ghost use Rattle.growth.specs.Growth.{growth_of, less as less_of};
ghost use Rattle.growth.specs.Steps.{more_grown, with_line};
ghost use Rattle.growth.specs.Totals.{
  answer_of,
  no_totals,
  totals as totals_of,
  totalled,
};
ghost use Rattle.growth.specs.Bounds.{Narrow, Within, sum_bound};

use refusals::{ACCEPTED, PARTIAL_NODE, TOO_MANY_NAMES, UNREADABLE, Verdict};

// The words of a line.
pub const LINE: usize = 7;

// The most lines.
pub const LINES: usize = 256;

// A last line that is cut off.
const PARTIAL_LINE: u32 = PARTIAL_NODE;

// A line: the number of a refusal or 0, n, b, q and depth of the file's table, and the nodes and variables of its
// prenex form.
#[derive(Clone, Copy)]
pub struct Line {
    pub number: u32,
    pub n: u32,
    pub b: u32,
    pub q: u32,
    pub depth: u32,
    pub nodes: u32,
    pub variables: u32,
}

// Written and input nodes.
#[derive(Clone, Copy, Default)]
pub struct Growth {
    pub written: u64,
    pub input: u64,
}

// How many files were read and how many refused, the sums of the six figures, and the growth of the file that grew
// most.
#[derive(Clone, Copy, Default)]
pub struct Totals {
    pub read: u64,
    pub refused: u64,
    pub n: u64,
    pub b: u64,
    pub q: u64,
    pub depth: u64,
    pub nodes: u64,
    pub variables: u64,
    pub most: Growth,
}

#[derive(Clone, Copy)]
pub struct Answer {
    pub verdict: Verdict,
    pub totals: Totals,
}

// The totals of lines of seven words each: 1 for words that are no whole lines, 20 for more than 256 lines.
//
// The contract rules out a later line that wins a tie, and a refused line that is summed.
pub fn total(lines: &[u32]) -> Answer
    ensures { answer_of result ≡ totalled lines.now }
{
    if lines.len() % LINE != 0 {
        return refused(PARTIAL_LINE);
    }
    let count = lines.len() / LINE;
    if LINES < count {
        return refused(TOO_MANY_NAMES);
    }
    let verdict = refusals::accepted();
    let totals = total_lines(lines, count);
    Answer { verdict, totals }
}

fn refused(number: u32) -> Answer
    ensures { answer_of result ≡ refused_of (refusal number 0) no_totals }
{
    let verdict = refusals::refusal(number, 0);
    let totals = Totals::default();
    Answer { verdict, totals }
}

fn total_lines(lines: &[u32], count: usize) -> Totals
    requires { (line_width * count ≤ length lines.now) × (count ≤ 256) }
    ensures { result ≡ totals_of (line_at lines.now) count }
{
    let mut totals = Totals::default();
    for i in 0..count {
        totals = add_line(totals, line_at(lines, i));
    }
    totals
}

// The totals with one line more.
fn add_line(t: Totals, line: Line) -> Totals
    requires { Within sum_bound t }
    ensures sums { result ≡ with_line t line }
    ensures within { (bound : ℕ) → Within bound t → Within (bound + 4294967295) result }
{
    let most = more_grown(t.most, growth_of(line));
    Totals {
        read: plus(t.read, u32::from(line.number != UNREADABLE)),
        refused: plus(t.refused, u32::from(line.number != ACCEPTED)),
        n: plus(t.n, line.n),
        b: plus(t.b, line.b),
        q: plus(t.q, line.q),
        depth: plus(t.depth, line.depth),
        nodes: plus(t.nodes, line.nodes),
        variables: plus(t.variables, line.variables),
        most,
    }
}

fn plus(sum: u64, x: u32) -> u64
    requires { sum ≤ sum_bound }
    ensures { (result ≡ sum + x) × (result ≤ sum + 4294967295) }
{
    sum + x as u64
}

fn growth_of(line: Line) -> Growth
    ensures { (result ≡ growth_of line) × Narrow result }
{
    Growth {
        written: line.nodes as u64,
        input: line.n as u64,
    }
}

// The growth of the file that grew most so far, after one file more.
fn more_grown(most: Growth, here: Growth) -> Growth
    requires { Narrow most × Narrow here }
    ensures { (result ≡ more_grown most here) × Narrow result }
{
    if here.input == 0 {
        return most;
    }
    if most.input == 0 {
        return here;
    }
    if less(most, here) {
        return here;
    }
    most
}

// Whether written over input is less of g than of h.
fn less(g: Growth, h: Growth) -> bool
    requires { Narrow g × Narrow h }
    ensures { result ≡ less_of g h }
{
    g.written * h.input < h.written * g.input
}

// Line i; a refused line's six figures are read as zeros.
pub fn line_at(lines: &[u32], i: usize) -> Line
    requires { line_width * i + line_width ≤ length lines.now }
    ensures { result ≡ line_at lines.now i }
{
    let at = LINE * i;
    let words = &lines[at..at + LINE];
    let number = words[0];
    if number != ACCEPTED {
        return refused_line(number);
    }
    Line {
        number,
        n: words[1],
        b: words[2],
        q: words[3],
        depth: words[4],
        nodes: words[5],
        variables: words[6],
    }
}

// The line of a refused file.
pub fn refused_line(number: u32) -> Line
    ensures { result ≡ refused_line number }
{
    Line {
        number,
        n: 0,
        b: 0,
        q: 0,
        depth: 0,
        nodes: 0,
        variables: 0,
    }
}

// Stores a line as line i.
pub fn store_line(lines: &mut [u32], i: usize, line: Line)
    requires { line_width * i + line_width ≤ length lines.old }
    ensures { lines.new ≡ overwrite lines.old (line_width * i) (line_figures line) }
{
    let at = LINE * i;
    lines[at..at + LINE].copy_from_slice(&[
        line.number,
        line.n,
        line.b,
        line.q,
        line.depth,
        line.nodes,
        line.variables,
    ]);
}

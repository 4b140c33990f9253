// The text of a growth report (request S-13): a line of figures for each name, and the totals.
#![tactic(auto)]

ghost use Rattle.std.specs.Prelude.{◌+◌, ◌*◌, ◌≤◌, ◌≡◌, length};
ghost use mathlib.Core.List.{◌++◌, flat_map};
ghost use Rattle.texts.specs.Put.{Put};
ghost use Rattle.form_texts.specs.Writing.{after};
ghost use Rattle.growth.specs.Lines.{line_at, line_figures};
ghost use Rattle.growth.specs.Totals.{total_figures};
ghost use Rattle.name_lines.specs.Names.{names as names_of};
ghost use Rattle.name_lines.specs.Walk.{part};
ghost use Rattle.report_text.specs.Report.{
  figure_text,
  line_text,
  name_lines,
  total_word,
};
ghost use Rattle.report_text.specs.Bounds.{LineEach, most_line, report_room};
ghost use Rattle.report_text.specs.Promise.{Reports};
ghost use Rattle.texts.specs.Bounds.{last_line, last_piece};

use form_texts::Answer;
use growth::{LINE, Line, Totals};
use name_lines::Name;
use refusals::{ACCEPTED, BUFFER_TOO_SHORT, PARTIAL_NODE};

// Room for every report.
pub const ROOM: usize = 103384;

// Not one line of figures for each name.
const WRONG_LINES: u32 = PARTIAL_NODE;

// Writes the report of names, one a line, with a line of seven figures for each: 20 for more than 256 names,
// 21 for one of more than 255 bytes, 1 for another number of lines, 9 for a buffer that is too short.
//
// The contract rules out a report whose totals leave out a line, and one that prints a line's prefix
// variables before its nodes.
pub fn report(names: &[u8], lines: &[u32], out: &mut [u8]) -> Answer
    ensures { Reports names.now lines.now out.old (after result out.new) }
{
    let found = name_lines::check_names(names);
    let verdict = found.verdict;
    if verdict.number != ACCEPTED {
        return refused(verdict.number);
    }
    let count = found.count;
    if lines.len() != LINE * count {
        return refused(WRONG_LINES);
    }
    write(names, lines, count, out)
}

fn refused(number: u32) -> Answer
    ensures { (result.number ≡ number) × (result.position ≡ 0) × (result.bytes ≡ 0) }
{
    Answer {
        number,
        position: 0,
        bytes: 0,
    }
}

// The same of names that are taken, with a line for each: the text is counted, and written if there is room.
fn write(names: &[u8], lines: &[u32], count: usize, out: &mut [u8]) -> Answer
    requires { LineEach names.now lines.now count }
    ensures { Reports names.now lines.now out.old (after result out.new) }
{
    let totalled = growth::total(lines);
    let totals = totalled.totals;
    let none = &mut out[..0];
    let bytes = put_report(none, names, lines, count, totals);
    if out.len() < bytes {
        return refused(BUFFER_TOO_SHORT);
    }
    put_report(out, names, lines, count, totals);
    Answer {
        number: ACCEPTED,
        position: 0,
        bytes,
    }
}

// Puts the lines, and then the totals.
fn put_report(out: &mut [u8], names: &[u8], lines: &[u32], count: usize, totals: Totals) -> usize
    requires { LineEach names.now lines.now count }
    ensures { (Put out.old 0
        (name_lines (names_of names.now) (line_at lines.now) 0 ++ line_text total_word (total_figures totals))
        out.new result) × (result ≤ report_room) }
{
    let next = put_lines(out, names, lines, count);
    put_total(out, next, totals)
}

// Puts a line for each name.
fn put_lines(out: &mut [u8], names: &[u8], lines: &[u32], count: usize) -> usize
    requires { LineEach names.now lines.now count }
    ensures { (Put out.old 0
        (name_lines (names_of names.now) (line_at lines.now) 0)
        out.new result) × (result ≤ most_line * 256) }
{
    let mut at = 0;
    let mut from = 0;
    for i in 0..count {
        let name = name_lines::next_name(names, from);
        let line = growth::line_at(lines, i);
        at = put_name_line(out, at, names, name, line);
        from = name.end;
    }
    at
}

// Puts the line of the name that stands there.
fn put_name_line(out: &mut [u8], at: usize, names: &[u8], name: Name, line: Line) -> usize
    requires { (at ≤ report_room) × (name.from ≤ name.end) × (name.end ≤ length names.now)
        × (name.end ≤ name.from + 255) }
    ensures { (Put out.old at
        (line_text (part names.now name.from name.end) (line_figures line))
        out.new result) × (result ≤ at + most_line) }
{
    let figures = [
        line.number as u64,
        line.n as u64,
        line.b as u64,
        line.q as u64,
        line.depth as u64,
        line.nodes as u64,
        line.variables as u64,
    ];
    put_line(out, at, &names[name.from..name.end], &figures)
}

fn put_total(out: &mut [u8], at: usize, t: Totals) -> usize
    requires { at ≤ report_room }
    ensures { (Put out.old at (line_text total_word (total_figures t)) out.new result) × (result ≤ at + 216) }
{
    let most = t.most;
    let figures = [
        t.read,
        t.refused,
        t.n,
        t.b,
        t.q,
        t.depth,
        t.nodes,
        t.variables,
        most.written,
        most.input,
    ];
    put_line(out, at, b"total", &figures)
}

// Puts a line of a word and figures.
fn put_line(out: &mut [u8], at: usize, word: &[u8], figures: &[u64]) -> usize
    requires { (at ≤ report_room) × (length word.now ≤ 255) × (length figures.now ≤ 10) }
    ensures { (Put out.old at (line_text word.now figures.now) out.new result)
        × (result ≤ at + length word.now + 21 * length figures.now + 1) }
{
    let after_word = texts::put_word(out, at, word);
    let after_figures = put_figures(out, after_word, figures);
    texts::put_word(out, after_figures, b"\n")
}

// Puts figures with a space before each.
fn put_figures(out: &mut [u8], at: usize, figures: &[u64]) -> usize
    requires { (at ≤ last_line) × (length figures.now ≤ 10) }
    ensures { (Put out.old at (flat_map figure_text figures.now) out.new result)
        × (result ≤ at + 21 * length figures.now) }
{
    let mut next = at;
    for x in figures {
        next = put_figure(out, next, *x);
    }
    next
}

fn put_figure(out: &mut [u8], at: usize, x: u64) -> usize
    requires { at ≤ last_piece }
    ensures { (Put out.old at (figure_text x) out.new result) × (result ≤ at + 21) }
{
    let next = texts::put_word(out, at, b" ");
    texts::put_wide_number(out, next, x)
}

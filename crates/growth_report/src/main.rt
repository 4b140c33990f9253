// Reads names of QCIR files from standard input, one a line, and prints a line of figures for each and the totals
// (request S-13); or the number of the refusal of the names.
#![tactic(auto)]

ghost use Rattle.std.specs.Prelude.{ℕ, ◌≤◌, ◌≡◌, List, ◌++◌, length, take, false, IsNone};
ghost use Rattle.std.specs.Io.KnownBytes.{Consumes, IsAtEnd};
ghost use Rattle.refusals.specs.Verdict.{accepted};
ghost use Rattle.growth.specs.Lines.{line_at};
ghost use Rattle.name_lines.specs.Names.{names as names_of, names_verdict};
ghost use Rattle.name_lines.specs.Kept.{HasRead, Taken};
ghost use Rattle.report_text.specs.Report.{report_text};
ghost use Rattle.report_text.specs.Bounds.{LineEach, report_room};

use growth::{LINE, LINES, Line};
use name_lines::{Found, Name, State};
use refusals::{ACCEPTED, UNREADABLE};
use std::io::Read;
use std::{fs, io, str};

// The bytes that one read of standard input has room for.
const PART: usize = 4096;

// What standard input has told so far, whether there may be more, and why reading failed if it did.
#[derive(Clone, Copy)]
struct Part {
    state: State,
    more: bool,
    failed: Option<io::Error>,
}

// The names, and why reading failed if it did.
#[derive(Clone, Copy)]
struct Given {
    found: Found,
    failed: Option<io::Error>,
}

fn main(rt: HostRuntime) -> io::Result<()> {
    let mut kept = [0u8; name_lines::ROOM];
    run(&rt, &mut kept)
}

fn run(rt: &HostRuntime, kept: &mut [u8]) -> io::Result<()>
    requires { 65536 ≤ length kept.old }
{
    let mut stdin = rt.stdin();
    let given = read_names(&mut stdin, kept);
    if let Some(error) = given.failed {
        return command_line::fail(rt, b"standard input", &error);
    }
    let found = given.found;
    let verdict = found.verdict;
    if verdict.number != ACCEPTED {
        return rt.println(verdict.number);
    }
    let bytes = found.bytes;
    report(rt, &kept[..bytes])
}

// All that a reader gives, in parts: what is found of this text, and where reading did not fail, none is left.
// What standard input gives no contract tells. A proved loop has to end, and nothing says that standard input
// does: so the loop has a number of turns that no run uses up.
fn read_names<R: Read>(from: &mut R, kept: &mut [u8]) -> Given
    requires { 65536 ≤ length kept.old }
    ensures found { (result.found.bytes ≤ length kept.new)
        × ((text : List ℕ) × Taken (names_of text) result.found kept.new
        × Consumes (R.remaining from.old) (R.remaining from.new) text) }
    ensures end { IsNone result.failed → IsAtEnd (R.remaining from.new) }
{
    let mut p = read_part(from, name_lines::start(kept), kept);
    for _ in 0..u64::MAX {
        if !p.more {
            return names_given(p.state, p.failed, kept);
        }
        p = read_part(from, p.state, kept);
    }
    let endless = io::Error::other("no end was found");
    names_given(p.state, Some(endless), kept)
}

fn names_given(s: State, failed: Option<io::Error>, kept: &mut [u8]) -> Given
    ensures found { (result.found.bytes ≤ length kept.new)
        × ((text : List ℕ) → HasRead text s kept.old → Taken (names_of text) result.found kept.new) }
    ensures failed { result.failed ≡ failed }
{
    let found = name_lines::finish(s, kept);
    Given { found, failed }
}

// One read.
fn read_part<R: Read>(from: &mut R, s: State, kept: &mut [u8]) -> Part
    ensures read { (text : List ℕ) → HasRead text s kept.old
        → ((part : List ℕ) × HasRead (text ++ part) result.state kept.new
        × Consumes (R.remaining from.old) (R.remaining from.new) part) }
    ensures end { result.more ≡ false → IsNone result.failed → IsAtEnd (R.remaining from.new) }
{
    let mut part = [0u8; PART];
    match from.read(&mut part) {
        Ok(n) => Part {
            state: name_lines::read_on(s, &part[..n], kept),
            more: 0 < n,
            failed: None,
        },
        Err(error) => Part {
            state: s,
            more: false,
            failed: Some(error),
        },
    }
}

// Measures the files, and prints their report.
fn report(rt: &HostRuntime, names: &[u8]) -> io::Result<()>
    requires { names_verdict (names_of names.now) ≡ accepted }
{
    let mut lines = [0u32; LINES * LINE];
    let count = measure_files(rt, names, &mut lines);
    let end = LINE * count;
    print_report(rt, names, &lines[..end], count)
}

fn print_report(rt: &HostRuntime, names: &[u8], lines: &[u32], count: usize) -> io::Result<()>
    requires { LineEach names.now lines.now count }
{
    let mut text = [0u8; report_text::ROOM];
    let n = write_report(names, lines, count, &mut text);
    match rt.write_all(&text[..n]) {
        Ok(()) => Ok(()),
        Err(error) => command_line::fail(rt, b"standard output", &error),
    }
}

// The report, in a buffer with room for it: how many bytes are to be printed.
fn write_report(names: &[u8], lines: &[u32], count: usize, text: &mut [u8]) -> usize
    requires { LineEach names.now lines.now count × (report_room ≤ length text.old) }
    ensures { (result ≤ length text.new)
        × (take result text.new ≡ report_text (names_of names.now) (line_at lines.now)) }
{
    let answer = report_text::report(names, lines, text);
    answer.bytes
}

// A line for each name, of 256 at most; how many there are.
fn measure_files(rt: &HostRuntime, names: &[u8], lines: &mut [u32]) -> usize
    requires { length lines.old ≡ 1792 }
    ensures { (result ≤ 256) × (length (names_of names.now) ≤ 256 → result ≡ length (names_of names.now)) }
{
    let mut from = 0;
    for i in 0..LINES {
        let name = name_lines::next_name(names, from);
        if name.end <= name.from {
            return i;
        }
        growth::store_line(lines, i, measure_name(rt, names, name));
        from = name.end;
    }
    LINES
}

// The line of the file with the name that stands there.
fn measure_name(rt: &HostRuntime, names: &[u8], name: Name) -> Line
    requires { (name.from ≤ name.end) × (name.end ≤ length names.now) }
{
    let from = name.from;
    let end = name.end;
    measure_file(rt, &names[from..end])
}

// The line of a file: 22 if it can't be opened or read to its end, and where its name is no text in UTF-8.
fn measure_file(rt: &HostRuntime, name: &[u8]) -> Line {
    let Ok(name) = str::from_utf8(name) else {
        return growth::refused_line(UNREADABLE);
    };
    match fs::open(rt, name) {
        Ok(mut file) => measure_open(&mut file),
        Err(_) => growth::refused_line(UNREADABLE),
    }
}

// The line of a file that is open.
fn measure_open<R: Read>(file: &mut R) -> Line {
    let mut content = [0u8; command_line::ROOM];
    match command_line::read_all(file, &mut content) {
        Ok(length) => file_line::line_of(&content[..length]),
        Err(_) => growth::refused_line(UNREADABLE),
    }
}

// What the programs here share: reading the text that the command line names, and saying on standard
// error what is wrong.
#![tactic(auto)]

ghost use Rattle.std.specs.Prelude.{◌+◌, ◌<◌, ◌≤◌, ◌≡◌, length, take, IfOk, IfSome, OnErr};
ghost use Rattle.std.specs.Io.{ReadsAtMost};
ghost use Rattle.std.specs.Io.KnownBytes.{Consumes, IsAtEnd};
ghost use Rattle.std.specs.Counts.{IsPrefixLen};
ghost use Rattle.command_line.specs.Place.{line, column, next_line, next_column};

use refusals::{
    BUFFER_TOO_SHORT, GATE_NOT_USED_ONCE, MISPLACED_NAME, MISSPELLED, TOO_LARGE,
    TOO_MANY_VARIABLES, UNBOUND_VARIABLE,
};
use std::env::FillError;
use std::io::{Read, Write};
use std::rt::Env;
use std::{fs, io, str};

// The most bytes of a QCIR text.
const BYTES: usize = 65536;

// Room for a text and a byte more, so that a longer text is seen to be too long.
pub const ROOM: usize = 65537;

// Room for a file's name, which the system takes up to 4,095 bytes of.
const NAME: usize = 4096;

// Room for an error's words: std takes up to 256 bytes of the system's, and writes its number behind them.
const WORDS: usize = 320;

const LINE_END: u8 = b'\n';

// A place in a text: line and column, both from 1; columns are bytes.
#[derive(Clone, Copy)]
struct Place {
    line: usize,
    column: usize,
}

// Reads the file that the program's only argument names; if that is `-` or there is none, standard
// input. How many bytes were read; none if that failed. What goes wrong is said here, the program's
// usage among it; an error is one of saying it.
pub fn read_input(rt: &HostRuntime, usage: &[u8], text: &mut [u8]) -> io::Result<Option<usize>>
    ensures ok { IfOk result (λ read. IfSome read (λ n. IsPrefixLen n text.new)) }
    ensures err { OnErr result (length text.new ≡ length text.old) }
{
    if is_given(rt, 2) {
        say(rt, usage)?;
        return Ok(None);
    }
    let mut path = [0u8; NAME];
    match rt.arg(1, &mut path) {
        Ok(length) => read_named(rt, &path[..length], text),
        Err(FillError::NotPresent) => read_standard_input(rt, text),
        Err(FillError::TooLong) => {
            eprintln!(rt; "the file's name: File name too long")?;
            Ok(None)
        }
    }
}

// Whether the command line has an argument of this number; the program's name is 0.
fn is_given(rt: &HostRuntime, number: usize) -> bool {
    let mut none = [0u8; 0];
    !matches!(rt.arg(number, &mut none), Err(FillError::NotPresent))
}

// A name that is no text in UTF-8 opens no file here, and is said to be none.
fn read_named(rt: &HostRuntime, path: &[u8], text: &mut [u8]) -> io::Result<Option<usize>>
    ensures ok { IfOk result (λ read. IfSome read (λ n. IsPrefixLen n text.new)) }
    ensures err { OnErr result (length text.new ≡ length text.old) }
{
    if path == b"-".as_slice() {
        return read_standard_input(rt, text);
    }
    let Ok(name) = str::from_utf8(path) else {
        say(rt, path)?;
        eprintln!(rt; ": not a name in UTF-8")?;
        return Ok(None);
    };
    match fs::open(rt, name) {
        Ok(mut file) => read_open(rt, &mut file, path, text),
        Err(error) => {
            fail(rt, path, &error)?;
            Ok(None)
        }
    }
}

fn read_standard_input(rt: &HostRuntime, text: &mut [u8]) -> io::Result<Option<usize>>
    ensures ok { IfOk result (λ read. IfSome read (λ n. IsPrefixLen n text.new)) }
    ensures err { OnErr result (length text.new ≡ length text.old) }
{
    let mut stdin = rt.stdin();
    read_open(rt, &mut stdin, b"standard input", text)
}

// Reads what is open, and says under this name that it could not be read.
fn read_open<R: Read>(
    rt: &HostRuntime,
    from: &mut R,
    name: &[u8],
    text: &mut [u8],
) -> io::Result<Option<usize>>
    ensures ok { IfOk result (λ read. IfSome read (λ n. IsPrefixLen n text.new)) }
    ensures err { OnErr result (length text.new ≡ length text.old) }
{
    match read_all(from, text) {
        Ok(length) => Ok(Some(length)),
        Err(error) => {
            fail(rt, name, &error)?;
            Ok(None)
        }
    }
}

// Reads until the text is full, the input ends or a read fails. What it puts in the text's front is what
// the reader gave, all of it where there is room for more.
pub fn read_all<R: Read>(from: &mut R, text: &mut [u8]) -> io::Result<usize>
    ensures bound { ReadsAtMost result text.new }
    ensures bytes { IfOk result (λ n. Consumes (R.remaining from.old) (R.remaining from.new) (take n text.new)) }
    ensures end { IfOk result (λ n. n < length text.new → IsAtEnd (R.remaining from.new)) }
    ensures err { OnErr result (length text.new ≡ length text.old) }
{
    let mut length = 0;
    while length < text.len() {
        let more = from.read(&mut text[length..])?;
        if more == 0 {
            return Ok(length);
        }
        length += more;
    }
    Ok(length)
}

// Says that a text is refused: the number, the place where it speaks of one, and the reason.
pub fn refuse(rt: &HostRuntime, text: &[u8], number: u32, position: u32) -> io::Result<()> {
    eprint!(rt; "refused: {number}")?;
    say_place(rt, text, number, position)?;
    eprintln!(rt; " ({})", reason(text, number))
}

// Where a refusal is. A text that is too long has no place, nor has a table with too many nodes.
fn say_place(rt: &HostRuntime, text: &[u8], number: u32, position: u32) -> io::Result<()> {
    match number {
        TOO_MANY_VARIABLES => eprint!(rt; " at node {position}"),
        MISSPELLED | MISPLACED_NAME if text.len() <= BYTES => {
            let here = find_place(text, position);
            eprint!(rt; " at line {}, column {}", here.line, here.column)
        }
        UNBOUND_VARIABLE => eprint!(rt; " at variable {position}"),
        GATE_NOT_USED_ONCE => eprint!(rt; " at gate {position}"),
        _ => Ok(()),
    }
}

// In a few words, what a refusal's number says of a text. The programs get no other number, and the
// last of these never: their buffers have room for every table and every form.
fn reason(text: &[u8], number: u32) -> &'static str {
    match number {
        TOO_LARGE => "too many nodes",
        TOO_MANY_VARIABLES => "too many bound variables",
        MISSPELLED if BYTES < text.len() => "longer than 65,536 bytes",
        MISSPELLED => "spelling",
        MISPLACED_NAME => "name misplaced",
        UNBOUND_VARIABLE => "unbound variable",
        GATE_NOT_USED_ONCE => "gate not used exactly once",
        BUFFER_TOO_SHORT => "output buffer too short",
        _ => "cannot happen here",
    }
}

// The place of the byte at a position; at or after the text's end, where the next byte would stand.
//
// The contract rules out lines counted from 0, and a column that goes on after a line's end.
fn find_place(text: &[u8], position: u32) -> Place
    ensures { (result.line ≡ line (take position text.now))
        × (result.column ≡ column (take position text.now)) }
{
    let end = text.len().min(position as usize);
    let mut here = Place { line: 1, column: 1 };
    for byte in &text[..end] {
        here = after(here, *byte);
    }
    here
}

// The place after a byte.
fn after(here: Place, byte: u8) -> Place
    requires { (here.line ≤ 4294967296) × (here.column ≤ 4294967296) }
    ensures { (result.line ≡ next_line here.line byte)
        × (result.column ≡ next_column here.column byte) }
{
    if byte == LINE_END {
        return Place {
            line: here.line + 1,
            column: 1,
        };
    }
    Place {
        line: here.line,
        column: here.column + 1,
    }
}

// Says what failed, under a name, and why, as the system words it. Words that have no room are an error.
pub fn fail(rt: &HostRuntime, what: &[u8], error: &io::Error) -> io::Result<()> {
    let mut words = [0u8; WORDS];
    let mut rest = &mut words[..];
    write!(rest, "{error}")?;
    let length = WORDS.saturating_sub(rest.len());
    say(rt, what)?;
    eprint!(rt; ": ")?;
    say(rt, without_number(&words[..length]))?;
    eprintln!(rt;)
}

// An error's words without the system's number of it, which std writes behind them.
fn without_number(words: &[u8]) -> &[u8] {
    let Ok(text) = str::from_utf8(words) else {
        return words;
    };
    match text.split_once(" (os error ") {
        Some((before, _)) => before.as_bytes(),
        None => words,
    }
}

fn say(rt: &HostRuntime, bytes: &[u8]) -> io::Result<()> {
    rt.stderr().write_all(bytes)
}

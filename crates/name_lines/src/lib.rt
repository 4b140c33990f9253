// The names in a text (request S-13): one a line, empty lines skipped. How many there are, one after the other, and kept from
// a text that comes in parts.
#![tactic(auto)]

ghost use Rattle.std.specs.Prelude.{ℕ, ◌+◌, ◌≤◌, ◌<◌, ◌≡◌, List, [], ◌++◌, length};
ghost use Rattle.name_lines.specs.Names.{answer_of, counted, judged, line_end, names};
ghost use Rattle.name_lines.specs.Walk.{FirstFrom, NextName};
ghost use Rattle.name_lines.specs.Kept.{
  HasRead,
  Holds,
  Reading,
  StoredByte,
  Taken,
  feed,
};

use refusals::{ACCEPTED, NAME_TOO_LONG, TOO_MANY_NAMES, Verdict};

const LINE_END: u8 = b'\n';

// The most names, and the most bytes of one.
const NAMES: usize = 256;

const NAME: usize = 255;

// Room for the names that are taken, each with an LF after it.
pub const ROOM: usize = 65536;

// Where a name stands: from its first byte to before its end. One without bytes tells that there is none, and not an
// Option: `next_name` promises it so to callers.
#[derive(Clone, Copy)]
pub struct Name {
    pub from: usize,
    pub end: usize,
}

// The verdict on the names, and how many there are if they are taken.
#[derive(Clone, Copy)]
pub struct Answer {
    pub verdict: Verdict,
    pub count: usize,
}

// What has been read: how many names have begun (257: over 256), how many bytes of the last (256: over 255) unless it has
// ended, whether one was over 255 bytes, and how many bytes are kept.
#[derive(Clone, Copy)]
pub struct State {
    count: usize,
    length: usize,
    long: bool,
    at: usize,
}

// The verdict on the names, and, if they are taken, how many there are and how many bytes are kept of them.
#[derive(Clone, Copy)]
pub struct Found {
    pub verdict: Verdict,
    pub count: usize,
    pub bytes: usize,
}

// How many names a text has: 20 for more than 256, then 21 for one of more than 255 bytes.
//
// The contract rules out 21 before 20, and a count that takes empty lines for names.
pub fn check_names(text: &[u8]) -> Answer
    ensures { answer_of result ≡ counted (names text.now) }
{
    let mut count = 0;
    let mut long = false;
    let mut name = next_name(text, 0);
    while name.from < name.end {
        count += 1;
        long |= NAME < name.end - name.from;
        name = next_name(text, name.end);
    }
    let verdict = judge(count, long);
    if verdict.number != ACCEPTED {
        return Answer { verdict, count: 0 };
    }
    Answer { verdict, count }
}

// The verdict on so many names, some of them over 255 bytes or none.
fn judge(count: usize, long: bool) -> Verdict
    ensures { result ≡ judged count long }
{
    if NAMES < count {
        return refusals::refusal(TOO_MANY_NAMES, 0);
    }
    if long {
        return refusals::refusal(NAME_TOO_LONG, 0);
    }
    refusals::accepted()
}

// The first name from a byte on; where there is none, one without bytes.
//
// The contract rules out an empty line taken for a name, and a name that goes on over an LF.
pub fn next_name(text: &[u8], from: usize) -> Name
    ensures { NextName text.now from result }
{
    if text.len() < from {
        let end = text.len();
        return Name { from: end, end };
    }
    let start = first_from(text, from, |byte| byte != LINE_END);
    let end = first_from(text, start, |byte| byte == LINE_END);
    Name { from: start, end }
}

// The first byte from an index on that passes the test, or the text's end.
fn first_from<F: Fn(u8) -> bool>(text: &[u8], from: usize, test: F) -> usize
    requires within { from ≤ length text.now }
    requires callable { F.IsAlwaysCallable test }
    ensures { FirstFrom (F.post test) text.now from result }
{
    match text[from..].iter().position(|byte| test(*byte)) {
        Some(k) => from + k,
        None => text.len(),
    }
}

// Nothing read yet.
pub fn start(kept: &[u8]) -> State
    ensures { 65536 ≤ length kept.now → HasRead [] result kept.now }
{
    State {
        count: 0,
        length: 0,
        long: false,
        at: 0,
    }
}

// Reads a part of the text.
pub fn read_on(state: State, part: &[u8], kept: &mut [u8]) -> State
    ensures { (text : List ℕ) → HasRead text state kept.old
        → HasRead (text ++ part.now) result kept.new }
{
    let mut s = state;
    for byte in part {
        s = step(s, *byte, kept);
    }
    s
}

// The text has ended. What is kept has its names, if they are taken.
//
// The contract rules out a 257th name that is dropped, and a name without its last byte.
pub fn finish(state: State, kept: &mut [u8]) -> Found
    ensures { (result.bytes ≤ length kept.new)
        × ((text : List ℕ) → HasRead text state kept.old → Taken (names text) result kept.new) }
{
    let verdict = judge(state.count, state.long);
    if verdict.number != ACCEPTED {
        return Found {
            verdict,
            count: 0,
            bytes: 0,
        };
    }
    let s = end_line(state, kept);
    let at = s.at;
    if kept.len() < at {
        return Found {
            verdict,
            count: s.count,
            bytes: 0,
        };
    }
    Found {
        verdict,
        count: s.count,
        bytes: at,
    }
}

fn step(s: State, byte: u8, kept: &mut [u8]) -> State
    ensures { (a : Reading) → Holds a s kept.old → Holds (feed a byte) result kept.new }
{
    if NAMES < s.count {
        return s;
    }
    if byte == LINE_END {
        return end_line(s, kept);
    }
    if s.length == 0 {
        return begin_name(s, byte, kept);
    }
    go_on(s, byte, kept)
}

fn end_line(s: State, kept: &mut [u8]) -> State
    requires { s.count ≤ 256 }
    ensures { (a : Reading) → Holds a s kept.old → Holds (feed a line_end) result kept.new }
{
    if s.length == 0 {
        return s;
    }
    State {
        length: 0,
        at: keep(kept, s.at, LINE_END),
        ..s
    }
}

fn begin_name(s: State, byte: u8, kept: &mut [u8]) -> State
    requires { (s.count ≤ 256) × (byte ≡ line_end → ⊥) × (s.length ≡ 0) }
    ensures { (a : Reading) → Holds a s kept.old → Holds (feed a byte) result kept.new }
{
    State {
        count: s.count + 1,
        length: 1,
        at: keep(kept, s.at, byte),
        ..s
    }
}

fn go_on(s: State, byte: u8, kept: &mut [u8]) -> State
    requires { (s.count ≤ 256) × (byte ≡ line_end → ⊥) × (s.length ≡ 0 → ⊥) }
    ensures { (a : Reading) → Holds a s kept.old → Holds (feed a byte) result kept.new }
{
    if NAME < s.length {
        return s;
    }
    State {
        length: s.length + 1,
        long: s.long | (s.length == NAME),
        at: keep(kept, s.at, byte),
        ..s
    }
}

// Keeps a byte where there is room, and says where the next goes.
fn keep(kept: &mut [u8], at: usize, byte: u8) -> usize
    ensures { StoredByte kept.old at byte result kept.new }
{
    if at < kept.len() {
        kept[at] = byte;
        return at + 1;
    }
    at
}

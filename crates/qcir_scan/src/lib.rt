// Takes the bytes of a QCIR text and collects the file's tokens: the machine of qcir_spelling, by tables.
#![tactic(auto)]

ghost use Rattle.std.specs.Prelude.{◌≡◌, ◌≢◌, ℕ, true, ◌+◌, ◌%◌, ◌≤◌, ◌<◌, eqb, length, get_or, set};
ghost use Rattle.qcir.specs.Spelling.{is_space, is_digit};
ghost use Rattle.qcir_header.specs.Header.{header_end};
ghost use Rattle.qcir_scan.specs.Tables.{entry_at};
ghost use Rattle.qcir_scan.specs.Held.{
  Holds,
  Wide,
  InName,
  Between,
  InComment,
  Leads,
  GoesOn,
  Answers,
  number_after,
  begin_after,
  count_after,
};

mod table;

use qcir_header::HEADER;
use table::{COLUMNS, MOVES};

// Numbers of places: where no file goes on, right after the header, and where a file may end. They are numbers and no enum,
// since the table is read at them, and has a place and what is done in 16 bits.
const DEAD: usize = 0;

const HEADED: usize = 1;

const DONE: usize = 27;

// From here on the places between two signs, those of names, of comment lines and of words.
const BETWEEN: usize = 4;

const NAMES: usize = 50;

const COMMENTS: usize = 65;

const WORDS: usize = 68;

// What an entry of the table does if a name begins; if less, the pending name ends in this role, or,
// if 0, nothing is done; if more, a further digit of the name is taken.
const NAME: u8 = 25;

// The highest number of a name.
const HIGHEST: u32 = 65535;

const LF: u8 = b'\n';

// The bytes so far, the place's number, the pending name, and how many tokens there are.
#[derive(Clone, Copy)]
pub struct Progress {
    pub at: usize,
    pub place: usize,
    pub number: u32,
    pub begin: u32,
    pub count: usize,
}

// Scans a text whose header ends at a position, or is wrong there. If the text is a file, the arrays hold its tokens, and
// how many there are is answered; else how many of its bytes some file begins with.
//
// The contract rules out a scanner that reports a spelling error late, one that accepts a name above 65,535, and one that
// accepts a name with a leading zero.
pub fn scan(
    text: &[u8],
    at: usize,
    roles: &mut [u8],
    numbers: &mut [u16],
    positions: &mut [u16],
) -> Result<usize, u32>
    requires text_len_bound { length text.now ≤ 65536 }
    requires at_value { at ≡ header_end text.now 0 }
    requires wide { Wide roles.old numbers.old positions.old }
    ensures { Answers text.now roles.new numbers.new positions.new result }
{
    if at < HEADER.len() {
        return Err(at as u32);
    }
    walk(text, at, roles, numbers, positions)
}

// Takes the bytes after the header one after the other, up to the first where no file goes on.
fn walk(
    text: &[u8],
    at: usize,
    roles: &mut [u8],
    numbers: &mut [u16],
    positions: &mut [u16],
) -> Result<usize, u32>
    requires text_len_bound { length text.now ≤ 65536 }
    requires at_value { (at ≡ header_end text.now 0) × (9 ≤ at) }
    requires wide { Wide roles.old numbers.old positions.old }
    ensures { Answers text.now roles.new numbers.new positions.new result }
{
    let mut q = Progress {
        at,
        place: HEADED,
        number: 0,
        begin: 0,
        count: 0,
    };
    // A `while`, since a turn takes as many bytes as the run is long: no range and no iterator has these steps.
    while q.at < text.len() {
        q = advance(text, q, roles, numbers, positions);
        if q.place == DEAD {
            return Err((q.at - 1) as u32);
        }
    }
    if !is_done(q.place) {
        return Err(q.at as u32);
    }
    Ok(q.count)
}

// Takes one byte and the run after it, or the digits of a name.
fn advance(
    text: &[u8],
    q: Progress,
    roles: &mut [u8],
    numbers: &mut [u16],
    positions: &mut [u16],
) -> Progress
    requires text_len_bound { length text.now ≤ 65536 }
    requires at_in_bounds { (q.at < length text.now) × (0 < q.place) }
    requires holds { Holds text.now roles.old numbers.old positions.old q }
    ensures { Holds text.now roles.new numbers.new positions.new result
        × (q.at < result.at) }
{
    let at = q.at;
    let byte = text[at];
    let entry = entry_at(q.place, byte);
    let act = (entry / 256) as u8;
    let place = (entry % 256) as usize;
    if act < NAME {
        put_token(roles, numbers, positions, q, act);
        let count = count_after(act, q.count);
        return skip_run(
            text,
            Progress {
                at: at + 1,
                place,
                count,
                ..q
            },
        );
    }
    let number = number_after(act, q.number, byte % 16);
    if HIGHEST < number {
        return stopped(q);
    }
    let begin = begin_after(act, q.begin, at as u32);
    read_digits(
        text,
        Progress {
            at: at + 1,
            place,
            number,
            begin,
            ..q
        },
    )
}

// Takes spaces between two signs, what is left of a comment line, or letters of a word.
fn skip_run(text: &[u8], q: Progress) -> Progress
    requires text_len_bound { length text.now ≤ 65536 }
    requires at_in_bounds { q.at ≤ length text.now }
    ensures { GoesOn text.now q result }
{
    if (BETWEEN <= q.place) & (q.place < NAMES) {
        return skip_spaces(text, q);
    }
    if (COMMENTS <= q.place) & (q.place < WORDS) {
        return skip_comment(text, q);
    }
    if WORDS <= q.place {
        return skip_word(text, q);
    }
    q
}

// Takes letters of a gate's word after its first, two at a time. The numbers are places within the word, or after it.
fn skip_word(text: &[u8], q: Progress) -> Progress
    requires text_len_bound { length text.now ≤ 65536 }
    requires at_in_bounds { q.at ≤ length text.now }
    ensures { GoesOn text.now q result }
{
    let q = skip_two(text, q, 100, b'n', b'd', 30);
    let q = skip_two(text, q, 103, b'o', b'r', 32);
    let q = skip_two(text, q, 105, b'x', b'i', 107);
    let q = skip_two(text, q, 107, b's', b't', 109);
    let q = skip_two(text, q, 110, b'o', b'r', 112);
    skip_two(text, q, 112, b'a', b'l', 114)
}

// Takes two letters that lead from a place to the next, if it is this place and the text goes on with them.
fn skip_two(text: &[u8], q: Progress, place: usize, first: u8, second: u8, next: usize) -> Progress
    requires text_len_bound { length text.now ≤ 65536 }
    requires at_in_bounds { q.at ≤ length text.now }
    requires leads { Leads place first second next }
    ensures { GoesOn text.now q result × (result.at ≤ length text.now) }
{
    let at = q.at;
    if q.place != place {
        return q;
    }
    if text.len() < at + 2 {
        return q;
    }
    if text[at] != first {
        return q;
    }
    if text[at + 1] != second {
        return q;
    }
    Progress {
        at: at + 2,
        place: next,
        ..q
    }
}

// Takes spaces and tabs between two signs.
fn skip_spaces(text: &[u8], q: Progress) -> Progress
    requires text_len_bound { length text.now ≤ 65536 }
    requires between { Between q.place × (q.at ≤ length text.now) }
    ensures { GoesOn text.now q result }
{
    // An index and no `position`: mostly there is one space, where `position` takes more instructions.
    for at in q.at..text.len() {
        if !is_space(text[at]) {
            return Progress { at, ..q };
        }
    }
    Progress {
        at: text.len(),
        ..q
    }
}

// Takes what is left of a comment line.
fn skip_comment(text: &[u8], q: Progress) -> Progress
    requires text_len_bound { length text.now ≤ 65536 }
    requires in_comment { InComment q.place × (q.at ≤ length text.now) }
    ensures { GoesOn text.now q result }
{
    let bytes = bytes_before_end(&text[q.at..]);
    Progress {
        at: q.at + bytes,
        ..q
    }
}

// How many bytes stand before the first LF, or in all.
fn bytes_before_end(bytes: &[u8]) -> usize
    ensures within { result ≤ length bytes.now }
    ensures no_end { (k : ℕ) → k < result → get_or bytes.now k 0 ≢ 10 }
    ensures at_end { result < length bytes.now → get_or bytes.now result 0 ≡ 10 }
{
    bytes
        .iter()
        .position(|byte| *byte == LF)
        .unwrap_or(bytes.len())
}

// Takes the further digits of the pending name.
fn read_digits(text: &[u8], q: Progress) -> Progress
    requires text_len_bound { length text.now ≤ 65536 }
    requires in_name { InName q.place × (q.number ≤ 65535) × (q.at ≤ length text.now) }
    ensures { GoesOn text.now q result }
{
    let mut number = q.number;
    for at in q.at..text.len() {
        let byte = text[at];
        if !is_digit(byte) {
            return Progress { at, number, ..q };
        }
        let further = 10 * number + (byte % 16) as u32;
        if HIGHEST < further {
            return stopped(Progress { at, number, ..q });
        }
        number = further;
    }
    Progress {
        at: text.len(),
        number,
        ..q
    }
}

// Takes a digit that makes the pending name too high.
fn stopped(q: Progress) -> Progress
    requires { q.at < 65536 }
    ensures { result ≡ record { at = q.at + 1; place = 0; number = q.number; begin = q.begin; count = q.count } }
{
    Progress {
        at: q.at + 1,
        place: DEAD,
        ..q
    }
}

fn is_space(byte: u8) -> bool
    ensures { result ≡ is_space byte }
{
    (byte == b' ') | (byte == b'\t')
}

fn is_digit(byte: u8) -> bool
    ensures { result ≡ is_digit byte }
{
    byte.is_ascii_digit()
}

// The table's entry for a byte at a place.
fn entry_at(place: usize, byte: u8) -> u16
    requires { place < 115 }
    ensures { result ≡ entry_at place byte }
{
    MOVES[COLUMNS[byte as usize] as usize + place]
}

// Writes the pending name as the next token. It counts once the name has ended.
fn put_token(roles: &mut [u8], numbers: &mut [u16], positions: &mut [u16], q: Progress, role: u8)
    requires wide { Wide roles.old numbers.old positions.old }
    requires count_bound { (q.count < 32768) × (q.number ≤ 65535) × (q.begin < 65536) }
    ensures { (roles.new ≡ set roles.old q.count role)
        × (numbers.new ≡ set numbers.old q.count q.number)
        × (positions.new ≡ set positions.old q.count q.begin) }
{
    let count = q.count;
    roles[count] = role;
    numbers[count] = q.number as u16;
    positions[count] = q.begin as u16;
}

// The pending number after a digit.
fn number_after(act: u8, number: u32, digit: u8) -> u32
    requires { number ≤ 65535 }
    ensures { result ≡ number_after act number digit }
{
    if act == NAME {
        return digit as u32;
    }
    10 * number + digit as u32
}

// The position of the pending name.
fn begin_after(act: u8, begin: u32, at: u32) -> u32
    ensures { result ≡ begin_after act begin at }
{
    if act == NAME {
        return at;
    }
    begin
}

// How many tokens there are after a byte that ends the pending name in this role.
fn count_after(role: u8, count: usize) -> usize
    requires { count < 32768 }
    ensures { result ≡ count_after role count }
{
    if role == 0 {
        return count;
    }
    count + 1
}

// The text may end here: its end is read as LF.
fn is_done(place: usize) -> bool
    requires { place < 115 }
    ensures { result ≡ eqb (entry_at place 10 % 256) 27 }
{
    (entry_at(place, LF) % 256) as usize == DONE
}

// Bytes and numbers written to a buffer. A call puts a piece at an index of the buffer and hands back the
// index after it. The buffer then holds the piece if it fits, and a piece is counted whether it fits or not:
// a run over an empty buffer tells the size.
#![tactic(auto)]

ghost use Rattle.std.specs.Prelude.{◌≡◌, ◌+◌, ◌*◌, ◌-◌, ◌≤◌, ◌<◌, length};
ghost use Rattle.lists.specs.Parts.{overwrite};
ghost use Rattle.texts.specs.Numerals.{digits};
ghost use Rattle.texts.specs.Put.{Put};
ghost use Rattle.texts.specs.Bounds.{number_bound, last_piece};

// Stores a word where it fits. Byte by byte, since words are short: a copy of a length that is not known is a call of the C
// library, which takes longer, and which the archives for C would have to be given.
fn store_word(text: &mut [u8], at: usize, word: &[u8])
    requires { at + length word.now ≤ length text.old }
    ensures { text.new ≡ overwrite text.old at word.now }
{
    for k in 0..word.len() {
        text[at + k] = word[k];
    }
}

// Puts a word: bytes as they are.
pub fn put_word(text: &mut [u8], at: usize, word: &[u8]) -> usize
    requires { (at ≤ 2 * last_piece) × (length word.now ≤ 65536) }
    ensures { Put text.old at word.now text.new result }
{
    let next = at + word.len();
    if next <= text.len() {
        store_word(text, at, word);
    }
    next
}

// How many digits a number has. Each number that is written is counted, and comparisons are faster than
// `checked_ilog10` here: a number took up to a third less to put.
pub fn digit_count(x: u32) -> usize
    requires { x < number_bound }
    ensures { result ≡ length (digits x) }
{
    match x {
        100000.. => 6,
        10000..=99999 => 5,
        1000..=9999 => 4,
        100..=999 => 3,
        10..=99 => 2,
        _ => 1,
    }
}

// The same of a number of 64 bits; 0 has one.
fn wide_digit_count(x: u64) -> usize
    ensures { (result ≡ length (digits x)) × (result ≤ 20) }
{
    match x.checked_ilog10() {
        Some(log) => log as usize + 1,
        None => 1,
    }
}

// Stores a number's digits so that they end before index end, the last digit first. A loop over the indices would divide
// once more for each number, and takes longer.
fn store_digits(text: &mut [u8], end: usize, x: u64)
    requires { (length (digits x) ≤ end) × (end ≤ length text.old) }
    ensures { text.new ≡ overwrite text.old (end - length (digits x)) (digits x) }
{
    let mut from = end;
    let mut left = x;
    while left >= 10 {
        from -= 1;
        text[from] = digit(left % 10);
        left /= 10;
    }
    text[from - 1] = digit(left);
}

// A digit in ASCII.
fn digit(d: u64) -> u8
    requires { d < 10 }
    ensures { result ≡ 48 + d }
{
    b'0' + d as u8
}

// Puts a number in decimal.
pub fn put_number(text: &mut [u8], at: usize, x: u32) -> usize
    requires { (at ≤ 2 * last_piece) × (x < number_bound) }
    ensures put { Put text.old at (digits x) text.new result }
    ensures upper_bound { result ≤ at + 6 }
{
    put_digits(text, at, u64::from(x), digit_count(x))
}

// Puts a number of 64 bits in decimal.
pub fn put_wide_number(text: &mut [u8], at: usize, x: u64) -> usize
    requires { at ≤ 2 * last_piece }
    ensures put { Put text.old at (digits x) text.new result }
    ensures upper_bound { result ≤ at + 20 }
{
    put_digits(text, at, x, wide_digit_count(x))
}

// Puts a number that has so many digits.
fn put_digits(text: &mut [u8], at: usize, x: u64, count: usize) -> usize
    requires { (at ≤ 2 * last_piece) × (count ≡ length (digits x)) × (count ≤ 20) }
    ensures { Put text.old at (digits x) text.new result }
{
    let next = at + count;
    if next <= text.len() {
        store_digits(text, next, x);
    }
    next
}

// Literals as words of eight bytes, each stored at once: much faster than byte by byte. A piece shorter than eight
// bytes spoils what follows it, which is stored over later.
#![tactic(auto)]

ghost use Rattle.std.specs.Prelude.{true, false, List, [], ◌∷◌, ◌++◌, ◌≡◌, ℕ, ◌+◌, ◌*◌, ◌≤◌, ◌<◌, length};
ghost use Rattle.lists.specs.Parts.{overwrite};
ghost use Rattle.texts.specs.Numerals.{digits};
ghost use Rattle.texts.specs.Bounds.{number_bound, last_piece};
ghost use Rattle.qdimacs_form.specs.Clauses.{false_at};
ghost use Rattle.qdimacs_words.specs.Words.{
  low_bytes,
  numeral_word,
  literal_text,
  PieceHolds,
  Loose,
};

// The place of a word's highest byte, which holds how many bytes a number and the space behind it take.
const HIGHEST_BYTE: u64 = 72057594037927936;

// How many bytes are stored at once, and so how many after a piece may be spoilt.
pub const STORED: usize = 8;

// The bytes of a literal and the space behind it, and how many they are.
#[derive(Clone, Copy)]
pub struct Piece {
    pub bytes: u64,
    pub length: usize,
}

// The word of a number: its digits and a space from the lowest byte up, and their count in the highest. It is one
// number and no Piece, since the writer's memory is fixed and holds one for each node.
pub fn numeral_word(x: u32) -> u64
    requires { x < number_bound }
    ensures { result ≡ numeral_word x }
{
    let mut word: u64 = 32;
    let mut length: u64 = 2;
    let mut left = x;
    while left >= 10 {
        word = 256 * word + 48 + (left % 10) as u64;
        length += 1;
        left /= 10;
    }
    256 * word + 48 + left as u64 + HIGHEST_BYTE * length
}

// The literal without a minus sign, by its number's word.
pub fn positive(word: u64) -> Piece
    ensures { (x : ℕ) → x < number_bound → word ≡ numeral_word x
        → PieceHolds result (literal_text (false_at x false)) × (result.length ≤ 7) }
{
    Piece {
        bytes: word % HIGHEST_BYTE,
        length: (word / HIGHEST_BYTE) as usize,
    }
}

// The literal with one.
pub fn negative(word: u64) -> Piece
    ensures { (x : ℕ) → x < number_bound → word ≡ numeral_word x
        → PieceHolds result (literal_text (false_at x true)) × (result.length ≤ 8) }
{
    Piece {
        bytes: word % HIGHEST_BYTE * 256 + 45,
        length: (word / HIGHEST_BYTE) as usize + 1,
    }
}

// Stores eight bytes.
fn store_eight(text: &mut [u8], at: usize, word: u64)
    requires { at + 8 ≤ length text.old }
    ensures { text.new ≡ overwrite text.old at (low_bytes 8 word) }
{
    text[at..at + STORED].copy_from_slice(&word.to_le_bytes());
}

// Stores a piece where it fits with eight bytes behind it, and hands back the index after it.
//
// The contract rules out a store that spoils the bytes before a piece, and one that spoils more than eight behind
// it.
pub fn store_piece(text: &mut [u8], at: usize, piece: Piece) -> usize
    requires { (at + piece.length + 8 ≤ length text.old) × (piece.length ≤ 8) }
    ensures by_index { (bytes : List ℕ) → PieceHolds piece bytes → Loose text.old at bytes text.new result }
    ensures value { result ≡ at + piece.length }
{
    store_eight(text, at, piece.bytes);
    at + piece.length
}

// Stores the end of a clause likewise.
pub fn store_end(text: &mut [u8], at: usize) -> usize
    requires { at + 10 ≤ length text.old }
    ensures loose { Loose text.old at (48 ∷ 10 ∷ []) text.new result }
    ensures value { result ≡ at + 2 }
{
    // By hand: a copy from a slice was tried, and is slower for two bytes.
    text[at] = b'0';
    text[at + 1] = b'\n';
    at + 2
}

// How many bytes a number and the space behind it take. Nearly all numbers of a large form have five digits: these are told
// by two tests, where `texts::digit_count` takes five.
fn name_length(x: u32) -> usize
    requires { x < number_bound }
    ensures { result ≡ length (digits x) + 1 }
{
    if x < 10000 {
        return texts::digit_count(x) + 1;
    }
    if x < 100000 {
        return 6;
    }
    7
}

// Puts a number and the space behind it.
pub fn put_name(text: &mut [u8], at: usize, x: u32) -> usize
    requires { (at ≤ last_piece) × (x < number_bound) }
    ensures loose { Loose text.old at (digits x ++ (32 ∷ [])) text.new result }
    ensures upper_bound { result ≤ at + 7 }
{
    let next = at + name_length(x);
    if next + STORED <= text.len() {
        let piece = positive(numeral_word(x));
        store_piece(text, at, piece);
    }
    next
}

// Tokens of a QCIR file: its names in the order of the text, each with its role. Three arrays hold
// them: roles, numbers and positions.
#![tactic(auto)]

ghost use Rattle.std.specs.Prelude.{◌≡◌, ◌≤◌};
ghost use Rattle.qcir_tokens.specs.Tokens.{is_outer, is_free, is_output, is_definition, is_bound, is_input, is_use, is_minus, is_last};
ghost use Rattle.qcir_tokens.specs.Held.{Room, token_limit, with_number};

// At most half as many tokens as bytes are in a text.
pub const TOKENS: usize = 32768;

// How many different numbers of 16 bits there are.
pub const NUMBERS: usize = 65536;

// The tokens of a file: the role, the number and the position of each. They are the first `count` of the arrays, which may be
// longer.
#[derive(Clone, Copy)]
pub struct Tokens<'a> {
    pub roles: &'a [u8],
    pub numbers: &'a [u16],
    pub positions: &'a [u16],
    pub count: usize,
    ghost room: { Room roles.now numbers.now positions.now count },
    ghost few: { count ≤ token_limit },
}

// Roles that single tokens have; the tests below cover the others.
pub const EXISTS_LINE: u8 = 5;

pub const EXISTS_LINE_LAST: u8 = 6;

pub const AND_GATE: u8 = 13;

pub const OR_GATE: u8 = 14;

pub const EXISTS_GATE: u8 = 16;

pub const EMPTY: u8 = 24;

// An entry of the free line or a prefix line.
#[tactic(auto, unfolding(crate::specs::Tokens::is_outer))]
pub fn is_outer(role: u8) -> bool
    ensures { result ≡ is_outer role }
{
    role <= 10
}

// An entry of the free line.
#[tactic(auto, unfolding(crate::specs::Tokens::is_free))]
pub fn is_free(role: u8) -> bool
    ensures { result ≡ is_free role }
{
    role <= 4
}

#[tactic(auto, unfolding(crate::specs::Tokens::is_output))]
pub fn is_output(role: u8) -> bool
    ensures { result ≡ is_output role }
{
    matches!(role, 11 | 12)
}

// The name that a gate line defines.
#[tactic(auto, unfolding(crate::specs::Tokens::is_definition))]
pub fn is_definition(role: u8) -> bool
    ensures { result ≡ is_definition role }
{
    matches!(role, 13..=17)
}

// A variable that a gate quantifies.
#[tactic(auto, unfolding(crate::specs::Tokens::is_bound))]
pub fn is_bound(role: u8) -> bool
    ensures { result ≡ is_bound role }
{
    matches!(role, 18 | 19)
}

#[tactic(auto, unfolding(crate::specs::Tokens::is_input))]
pub fn is_input(role: u8) -> bool
    ensures { result ≡ is_input role }
{
    matches!(role, 20..=23)
}

// An input or the output.
#[tactic(auto, unfolding(crate::specs::Tokens::is_use, crate::specs::Tokens::is_input, crate::specs::Tokens::is_output))]
pub fn is_use(role: u8) -> bool
    ensures { result ≡ is_use role }
{
    is_input(role) || is_output(role)
}

// A minus sign stands before the output or input.
#[tactic(auto, unfolding(crate::specs::Tokens::is_minus))]
pub fn is_minus(role: u8) -> bool
    ensures { result ≡ is_minus role }
{
    matches!(role, 12 | 21 | 23)
}

// The last token of a gate line.
#[tactic(auto, unfolding(crate::specs::Tokens::is_last))]
pub fn is_last(role: u8) -> bool
    ensures { result ≡ is_last role }
{
    22 <= role
}

// The lowest of the numbers found and one more.
//
// The contract rules out one by which the number found first stays.
#[tactic(auto, unfolding(crate::specs::Held::with_number))]
pub fn with_number(found: Option<u32>, number: u32) -> Option<u32>
    ensures { result ≡ with_number found number }
{
    Some(found.map_or(number, |lowest| number.min(lowest)))
}

// Refusal 11: finds the first name of a QCIR file that stands where it must not.
#![tactic(auto)]

ghost use Rattle.std.specs.Prelude.{◌≡◌, ℕ, ◌<◌, ◌≤◌, length, get_or};
ghost use Rattle.qcir.specs.File.{File};
ghost use Rattle.qcir.specs.Refusals.{misplaced};
ghost use Rattle.qcir_tokens.specs.Held.{tokens_from, HoldsFile, number_count, DefinitionsIn, found_of, token_limit};
ghost use Rattle.qcir_misplaced.specs.Faults.{
  is_entry,
  fault,
  lists_after,
  line_after,
  faults,
  first_of,
};

use qcir_tokens::{NUMBERS, Tokens};

// Finds the first misplaced name among the tokens: a gate name defined twice or also in a list, an
// input not after its gate, or a name twice in a list. `gates` has, for each number, one more than
// the index of the first token that defines it.
//
// The contract rules out a search that takes the earlier of two places, and one by which a gate may
// be its own input.
pub fn first_misplaced(tokens: &Tokens, gates: &[u16]) -> Option<u32>
    requires definitions_in { DefinitionsIn tokens.now.roles.now tokens.now.numbers.now tokens.now.count gates.now }
    ensures { (f : File) → HoldsFile tokens.now.roles.now tokens.now.numbers.now tokens.now.positions.now tokens.now.count f
        → result ≡ found_of (misplaced f) }
{
    let mut lists = [0u16; NUMBERS];
    first_fault(tokens, gates, &mut lists)
}

// The position of the first token at fault. `lists` has, for each number, the last list that holds
// it: first none.
fn first_fault(tokens: &Tokens, gates: &[u16], lists: &mut [u16]) -> Option<u32>
    requires gates_len { (length gates.now ≡ number_count) × (length lists.old ≡ number_count) }
    ensures { result ≡ first_of
        (faults (λ x. get_or gates.now x 0) (λ x. get_or lists.old x 0) 0 0
        (tokens_from tokens.now.roles.now tokens.now.numbers.now tokens.now.positions.now 0 tokens.now.count)) }
{
    let mut line: u16 = 0;
    for i in 0..tokens.count {
        let role = tokens.roles[i];
        let x = tokens.numbers[i] as usize;
        if is_fault(role, gates[x], lists[x], line, i) {
            return Some(tokens.positions[i] as u32);
        }
        line = pass(lists, role, x, line, i);
    }
    None
}

// An entry of a list: of the free line, a prefix line or a quantified gate.
#[tactic(auto, unfolding(crate::specs::Faults::is_entry))]
fn is_entry(role: u8) -> bool
    ensures { result ≡ is_entry role }
{
    qcir_tokens::is_outer(role) | qcir_tokens::is_bound(role)
}

// Whether token i is at fault. `gate` is one more than the first definition of its number, `list` the
// last list that holds the number, and `line` one more than the last definition: each of them 0 if
// there is none, as the arrays have it.
fn is_fault(role: u8, gate: u16, list: u16, line: u16, i: usize) -> bool
    requires { line ≤ token_limit }
    ensures { result ≡ fault role gate list line i }
{
    if is_entry(role) {
        return (list == line + 1) | ((gate != 0) & (gate <= line));
    }
    if qcir_tokens::is_definition(role) {
        return (gate as usize <= i) | (list != 0);
    }
    qcir_tokens::is_input(role) & (line <= gate)
}

// Passes token i, with number x: an entry is marked with its list. The result is one more than the
// last definition.
fn pass(lists: &mut [u16], role: u8, x: usize, line: u16, i: usize) -> u16
    requires x_in_bounds { x < length lists.old }
    requires line_le_token_limit { (line ≤ token_limit) × (i < token_limit) }
    ensures by_index { (y : ℕ) → get_or lists.new y 0 ≡ lists_after role x line (λ z. get_or lists.old z 0) y }
    ensures value { result ≡ line_after role line i }
{
    if is_entry(role) {
        lists[x] = line + 1;
        return line;
    }
    if qcir_tokens::is_definition(role) {
        return i as u16 + 1;
    }
    line
}

// Gates of a QCIR file by number: where each is defined first, and how often it is used.
#![tactic(auto)]

ghost use Rattle.std.specs.Prelude.{not, ◌&&◌, List, ◌∷◌, ◌≡◌, ℕ, ◌+◌, ◌<◌, min, eqb, length, get_or};
ghost use Rattle.lists.specs.Choice.{pick};
ghost use Rattle.qcir.specs.File.{File};
ghost use Rattle.qcir.specs.Refusals.{not_used_once};
ghost use Rattle.qcir_tokens.specs.Tokens.{is_definition, is_use};
ghost use Rattle.qcir_tokens.specs.Held.{tokens_from, HoldsNames, number_count, DefinitionsIn, found_of, token_limit};
ghost use Rattle.qcir_gates.specs.Uses.{uses_in, misused_in};

use qcir_tokens::{NUMBERS, Tokens};

// Marks each gate's first definition: one more than the index of its token. The tokens are read from the last to the
// first, so that the first definition is stored last. Zero stands for none: as options, the marks of all numbers would
// take twice the memory, and it is fixed.
//
// The contract rules out marks that name the token after.
pub fn mark_gates(tokens: &Tokens, gates: &mut [u16])
    requires gates_len { length gates.old ≡ number_count }
    requires by_index { (x : ℕ) → get_or gates.old x 0 ≡ 0 }
    ensures { DefinitionsIn tokens.now.roles.now tokens.now.numbers.now tokens.now.count gates.new }
{
    for i in (0..tokens.count).rev() {
        mark_gate(tokens.roles[i], tokens.numbers[i], i, gates);
    }
}

// The same of token i.
fn mark_gate(role: u8, number: u16, i: usize, gates: &mut [u16])
    requires { (i < token_limit) × (length gates.old ≡ number_count) }
    ensures { (x : ℕ) → get_or gates.new x 0
        ≡ pick (is_definition role && eqb number x) (i + 1) (get_or gates.old x 0) }
{
    if !qcir_tokens::is_definition(role) {
        return;
    }
    gates[number as usize] = (i + 1) as u16;
}

// Refusal 13: the lowest number of a gate that is not used exactly once.
//
// The contract rules out a search that does not notice a gate that is never used.
pub fn lowest_misused(tokens: &Tokens) -> Option<u32>
    ensures { (f : File) → HoldsNames tokens.now.roles.now tokens.now.numbers.now tokens.now.count f → result ≡ found_of (not_used_once f) }
{
    let mut uses = [0u8; NUMBERS];
    count_uses(tokens, &mut uses);
    lowest_not_once(tokens, &uses)
}

// Counts the uses of each number, up to two.
fn count_uses(tokens: &Tokens, uses: &mut [u8])
    requires uses_len { length uses.old ≡ number_count }
    requires by_index { (x : ℕ) → get_or uses.old x 0 ≡ 0 }
    ensures { (ps : List ℕ) (x : ℕ)
        → get_or uses.new x 0
        ≡ min 2 (uses_in (tokens_from tokens.now.roles.now tokens.now.numbers.now ps 0 tokens.now.count) x) }
{
    for i in (0..tokens.count).rev() {
        count_use(tokens.roles[i], tokens.numbers[i], uses);
    }
}

// The same of one token.
fn count_use(role: u8, number: u16, uses: &mut [u8])
    requires { length uses.old ≡ number_count }
    ensures { (x : ℕ) → get_or uses.new x 0
        ≡ pick (is_use role && eqb number x) (pick (eqb (get_or uses.old x 0) 0) 1 2)
        (get_or uses.old x 0) }
{
    if !qcir_tokens::is_use(role) {
        return;
    }
    let x = number as usize;
    uses[x] = one_more(uses[x]);
}

// One use more, of two at most.
fn one_more(uses: u8) -> u8
    ensures { result ≡ pick (eqb uses 0) 1 2 }
{
    if uses == 0 {
        return 1;
    }
    2
}

// The lowest number of a gate whose uses are not 1.
fn lowest_not_once(tokens: &Tokens, uses: &[u8]) -> Option<u32>
    requires uses_len { length uses.now ≡ number_count }
    ensures { (ps : List ℕ)
        → result ≡ found_of (misused_in (λ x. get_or uses.now x 0)
        (tokens_from tokens.now.roles.now tokens.now.numbers.now ps 0 tokens.now.count)) }
{
    let mut lowest = None;
    for i in (0..tokens.count).rev() {
        lowest = with_token(tokens.roles[i], tokens.numbers[i], uses, lowest);
    }
    lowest
}

// The same of one token more, before those among which `later` is the lowest.
fn with_token(role: u8, number: u16, uses: &[u8], later: Option<u32>) -> Option<u32>
    requires { length uses.now ≡ number_count }
    ensures { (xs : List ℕ) → later ≡ found_of xs
        → result ≡ found_of (pick (is_definition role && not (eqb (get_or uses.now number 0) 1))
        (number ∷ xs) xs) }
{
    if !qcir_tokens::is_definition(role) {
        return later;
    }
    if uses[number as usize] == 1 {
        return later;
    }
    qcir_tokens::with_number(later, number as u32)
}

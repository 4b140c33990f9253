// Refusal 12 of a QCIR file: the lowest variable that no block above binds and no free line names.
//
// Where the free and prefix lines name every variable that is used, none is unbound. Otherwise a walk goes through the tree
// of the gates, token by token: it starts at the output, and at each use of a gate it goes through the gate's line and back
// to the use. An entry marks its number as bound, and on the way back through the line the mark is again what it was
// before; so a variable's mark says, at each use, whether a block above binds it. One array, by token, keeps what the walk
// has to know on its way back: at an entry the mark before, and at a definition the token that uses the gate. Each token of
// a gate line is come by twice: the walk ends within two steps a token.
#![tactic(auto)]

ghost use Rattle.std.specs.Prelude.{true, false, not, ◌&&◌, [], ◌≡◌, ℕ, ◌*◌, ◌<◌, eqb, length, get_or};
ghost use Rattle.qcir.specs.File.{File};
ghost use Rattle.qcir.specs.Refusals.{misplaced, not_used_once, unbound};
ghost use Rattle.qcir_tokens.specs.Tokens.{is_use};
ghost use Rattle.qcir_tokens.specs.Held.{HoldsNames, DefinitionsIn, number_count, found_of, token_limit};
ghost use Rattle.qcir_unbound.specs.Outer.{Outer, AllMarked};
ghost use Rattle.qcir_unbound.specs.Steps.{tokens_of, token_of, state_of, start, is_end, is_above, moved, past, noted, judged, onward, back, step_at, run, Within, StepFits, BackFits};

use qcir_tokens::{NUMBERS, TOKENS, Tokens};

// The token at which the walk stands, on its way onward or back through a gate line; and the lowest unbound variable that was
// found, if any was.
#[derive(Clone, Copy)]
pub struct Walk {
    pub at: usize,
    pub leaving: bool,
    pub lowest: Option<u32>,
}

// A token's role and number, and one more than the token that defines the number first: 0 where none does, as the array
// of the definitions has it.
#[derive(Clone, Copy)]
pub struct Token {
    pub role: u8,
    pub number: u16,
    pub gate: u16,
}

// The lowest unbound variable, if there is one, of a file that refusals 11 and 13 leave.
//
// The contract rules out a walk that takes a name as bound once some gate has bound it, and one that stops early.
pub fn lowest_unbound(tokens: &Tokens, gates: &[u16]) -> Option<u32>
    requires holds_names { (f : File) × HoldsNames tokens.now.roles.now tokens.now.numbers.now tokens.now.count f }
    requires definitions_in { DefinitionsIn tokens.now.roles.now tokens.now.numbers.now tokens.now.count gates.now }
    ensures { (f : File) → HoldsNames tokens.now.roles.now tokens.now.numbers.now tokens.now.count f
        → misplaced f ≡ [] → not_used_once f ≡ [] → result ≡ found_of (unbound f) }
{
    let mut marks = [false; NUMBERS];
    let output = mark_outer(tokens, &mut marks);
    if all_marked(tokens, output, gates, &marks) {
        return None;
    }
    let walk = walk_tokens(tokens, gates, output, &mut marks);
    walk.lowest
}

// Marks the numbers that the free and prefix lines name. The result is the output's token, the first after theirs.
fn mark_outer(tokens: &Tokens, marks: &mut [bool]) -> usize
    requires marks_len { length marks.old ≡ number_count }
    requires by_index { (x : ℕ) → get_or marks.old x false ≡ false }
    ensures { Outer tokens.now.roles.now tokens.now.numbers.now tokens.now.count result marks.new }
{
    for i in 0..tokens.count {
        if !qcir_tokens::is_outer(tokens.roles[i]) {
            return i;
        }
        marks[tokens.numbers[i] as usize] = true;
    }
    tokens.count
}

// Whether every variable used at a token from `first` on is marked.
fn all_marked(tokens: &Tokens, first: usize, gates: &[u16], marks: &[bool]) -> bool
    requires gates_len { (length gates.now ≡ number_count) × (length marks.now ≡ number_count) }
    ensures { result ≡ true → AllMarked tokens.now.roles.now tokens.now.numbers.now
        gates.now marks.now first tokens.now.count }
{
    for i in first..tokens.count {
        let x = tokens.numbers[i] as usize;
        if is_unmarked(tokens.roles[i], gates[x], marks[x]) {
            return false;
        }
    }
    true
}

// A use of a variable that is not marked.
fn is_unmarked(role: u8, gate: u16, marked: bool) -> bool
    ensures { result ≡ (is_use role && (eqb gate 0 && not marked)) }
{
    qcir_tokens::is_use(role) & ((gate == 0) & !marked)
}

// Walks from the output, with the numbers marked that the free and prefix lines name, until it is back there: two steps a
// token at most.
fn walk_tokens(tokens: &Tokens, gates: &[u16], output: usize, marks: &mut [bool]) -> Walk
    requires within { Within tokens.now.roles.now tokens.now.numbers.now tokens.now.count gates.now }
    requires output_lt_count { (output < tokens.now.count) × (length marks.old ≡ number_count) }
    ensures { result ≡ (run (tokens_of tokens.now.roles.now tokens.now.numbers.now gates.now)
        (2 * tokens.now.count) (start output marks.old)).walk }
{
    let mut kept = [0u16; TOKENS];
    let mut walk = Walk {
        at: output,
        leaving: false,
        lowest: None,
    };
    for _ in 0..2 * tokens.count {
        let token = token_at(tokens, gates, walk.at);
        if walk.leaving & is_above(token.role) {
            return walk;
        }
        walk = take_step(tokens.roles, token, marks, &mut kept, walk);
    }
    walk
}

// Token i, as the walk reads it.
fn token_at(tokens: &Tokens, gates: &[u16], i: usize) -> Token
    requires i_in_bounds { i < tokens.now.count }
    requires gates_len { length gates.now ≡ number_count }
    ensures { result ≡ token_of (tokens_of tokens.now.roles.now tokens.now.numbers.now gates.now) i }
{
    let number = tokens.numbers[i];
    Token {
        role: tokens.roles[i],
        number,
        gate: gates[number as usize],
    }
}

// A step at the token at which the walk stands.
fn take_step(roles: &[u8], token: Token, marks: &mut [bool], kept: &mut [u16], walk: Walk) -> Walk
    requires step_fits { StepFits token walk marks.old kept.old }
    requires back_fits { walk.leaving ≡ true → BackFits roles.now walk kept.old }
    ensures { state_of result marks.new kept.new
        ≡ step_at (λ i. get_or roles.now i 0) token (state_of walk marks.old kept.old) }
{
    if walk.leaving {
        return go_back(roles, token, marks, kept, walk);
    }
    go_on(token, marks, kept, walk)
}

// A step onward: a variable that is used is judged, a gate entered, and an entry's number bound. No entry is its line's last
// token.
fn go_on(token: Token, marks: &mut [bool], kept: &mut [u16], walk: Walk) -> Walk
    requires { StepFits token walk marks.old kept.old }
    ensures { state_of result marks.new kept.new
        ≡ onward token (state_of walk marks.old kept.old) }
{
    let i = walk.at;
    let x = token.number as usize;
    if qcir_tokens::is_use(token.role) {
        if token.gate == 0 {
            return pass(token.role, i, judge(marks[x], token.number, walk));
        }
        let definition = token.gate as usize - 1;
        kept[definition] = i as u16;
        return move_to(definition, false, walk);
    }
    if qcir_tokens::is_bound(token.role) {
        kept[i] = marks[x] as u16;
        marks[x] = true;
        return move_to(i + 1, false, walk);
    }
    pass(token.role, i, walk)
}

// A step back through a gate line: an entry's number is again what it was before, and at the definition the walk returns to
// the token that uses the gate.
fn go_back(roles: &[u8], token: Token, marks: &mut [bool], kept: &mut [u16], walk: Walk) -> Walk
    requires step_fits { StepFits token walk marks.old kept.old }
    requires back_fits { BackFits roles.now walk kept.old }
    ensures { state_of result marks.new kept.new
        ≡ back (λ i. get_or roles.now i 0) token (state_of walk marks.old kept.old) }
{
    let i = walk.at;
    let x = token.number as usize;
    if qcir_tokens::is_definition(token.role) {
        let user = kept[i] as usize;
        return pass(roles[user], user, walk);
    }
    if qcir_tokens::is_bound(token.role) {
        marks[x] = kept[i] != 0;
    }
    move_to(i - 1, true, walk)
}

// Not of a gate line.
#[tactic(auto, unfolding(crate::specs::Steps::is_above))]
fn is_above(role: u8) -> bool
    ensures { result ≡ is_above role }
{
    qcir_tokens::is_outer(role) | qcir_tokens::is_output(role)
}

// The last token of a gate line, or the output.
#[tactic(auto, unfolding(crate::specs::Steps::is_end))]
fn is_end(role: u8) -> bool
    ensures { result ≡ is_end role }
{
    qcir_tokens::is_last(role) | qcir_tokens::is_output(role)
}

// The walk past token i.
fn pass(role: u8, i: usize, walk: Walk) -> Walk
    requires { i < token_limit }
    ensures { result ≡ past role i walk }
{
    if is_end(role) {
        return move_to(i, true, walk);
    }
    move_to(i + 1, false, walk)
}

#[tactic(auto, unfolding(crate::specs::Steps::moved))]
fn move_to(at: usize, leaving: bool, walk: Walk) -> Walk
    ensures { result ≡ moved at leaving walk }
{
    Walk {
        at,
        leaving,
        ..walk
    }
}

// The walk past a use of the variable x.
fn judge(bound: bool, x: u16, walk: Walk) -> Walk
    ensures { result ≡ judged bound x walk }
{
    if bound {
        return walk;
    }
    note(x as u32, walk)
}

// The walk with one more unbound variable.
#[tactic(auto, unfolding(crate::specs::Steps::noted))]
fn note(x: u32, walk: Walk) -> Walk
    ensures { result ≡ noted x walk }
{
    Walk {
        lowest: qcir_tokens::with_number(walk.lowest, x),
        ..walk
    }
}

// The form checker: which prenex forms are accepted, and the exact refusal of every other (14 the
// matrix, 15 the prefix).
#![tactic(auto)]

ghost use Rattle.std.specs.Prelude.{true, false, not, List, [], ◌∷◌, ◌≡◌, ℕ, ◌+◌, ◌/◌, ◌<◌, max, length, get_or, MatchOption, IfOk};
ghost use Rattle.lists.specs.Search.{lowest};
ghost use Rattle.lists.specs.Members.{maximum};
ghost use Rattle.formula.specs.Form.{prefix_width, blocks_of, binds};
ghost use Rattle.formula.specs.Truth.{digit};
ghost use Rattle.form_check.specs.Verdict.{
  form_limits,
  names_before,
  bad_block,
  prefix_verdict,
  form_verdict,
};
ghost use Rattle.form_check.specs.Accepted.{prefix_names};
ghost use Rattle.form_check.specs.Answer.{verdict_of};
ghost use Rattle.form_check.specs.Steps.{
  NamesFlagged,
  new_name,
  new_names,
  pushed,
  block_words_at,
  fitting_block,
};

// The most nodes of a matrix, and how many flags there are for names: one for each number up to the
// highest, 77,823, and one for 0.
pub const NODES: usize = matrix_check::NODES;

pub const NAMES: usize = 77824;

// The words of a prefix block: its kind, where its names start in the list, and how many there are.
pub const PREFIX_WIDTH: usize = 3;

// Why a form is refused: the node of its matrix (14) or the block of its prefix (15) that is at fault. A
// prefix may have more blocks than 32 bits count, if they are empty.
#[derive(Clone, Copy, PartialEq, Eq)]
pub enum Malformed {
    Matrix(usize),
    Prefix(usize),
}

// Refuses a form by request S-5's refusals 14 and 15, in that order, or accepts it. Of an accepted form
// `bound` then holds which names stand in the prefix, and the result is the highest of them (0 if there
// is none).
//
// The contract rules out a checker that tests the prefix first, one that lets a name stand in two
// blocks, and one that passes over an empty block whose range starts past the list's end.
pub fn check(
    nodes: &[u32],
    prefix: &[u32],
    variables: &[u32],
    bound: &mut [u8],
) -> Result<u32, Malformed>
    requires bound_len { length bound.old ≡ 77824 }
    requires by_index { (x : ℕ) → get_or bound.old x 0 ≡ 0 }
    ensures verdict { verdict_of result ≡ form_verdict nodes.now prefix.now variables.now }
    ensures bound { IfOk result (λ _. (x : ℕ)
        → get_or bound.new x 0 ≡ digit (binds (blocks_of prefix.now variables.now) x)) }
    ensures highest { IfOk result
        (λ highest. highest ≡ maximum (prefix_names (blocks_of prefix.now variables.now))) }
{
    if let Err(position) = matrix_check::check(nodes) {
        return Err(Malformed::Matrix(position));
    }
    check_prefix(prefix, variables, bound)
}

// Refusal 15. Of a prefix that it does not apply to, the names are then flagged, and the result is the
// highest of them.
fn check_prefix(prefix: &[u32], variables: &[u32], bound: &mut [u8]) -> Result<u32, Malformed>
    requires { NamesFlagged [] bound.old 0 }
    ensures verdict { verdict_of result ≡ prefix_verdict form_limits prefix.now variables.now }
    ensures names_flagged { IfOk result
        (λ highest. NamesFlagged (prefix_names (blocks_of prefix.now variables.now)) bound.new highest) }
{
    if prefix.len() % PREFIX_WIDTH != 0 {
        return Err(Malformed::Prefix(0));
    }
    let mut highest: u32 = 0;
    match first_bad(prefix, variables, bound, &mut highest) {
        Some(j) => Err(Malformed::Prefix(j)),
        None => Ok(highest),
    }
}

// The first block at fault, if there is one. Where there is none, the names of all are flagged.
fn first_bad(
    prefix: &[u32],
    variables: &[u32],
    bound: &mut [u8],
    highest: &mut u32,
) -> Option<usize>
    requires { NamesFlagged [] bound.old highest.old }
    ensures { MatchOption result
        (((j : ℕ) → j < length prefix.now / prefix_width
        → bad_block form_limits prefix.now variables.now j ≡ false)
        × NamesFlagged (names_before prefix.now variables.now (length prefix.now / prefix_width))
        bound.new highest.new)
        (λ j. (j < length prefix.now / prefix_width)
        × (j ≡ lowest (bad_block form_limits prefix.now variables.now) (length prefix.now / prefix_width))) }
{
    for j in 0..prefix.len() / PREFIX_WIDTH {
        if !take_block(prefix, variables, bound, highest, j) {
            return Some(j);
        }
    }
    None
}

// Whether block j is without a fault. Then its names are flagged. `bound` holds the names of the blocks
// below it, and `highest` the highest of them.
fn take_block(
    prefix: &[u32],
    variables: &[u32],
    bound: &mut [u8],
    highest: &mut u32,
    j: usize,
) -> bool
    requires j_in_bounds { j < length prefix.now / prefix_width }
    requires names_flagged { NamesFlagged (names_before prefix.now variables.now j) bound.old highest.old }
    ensures value { result ≡ not (bad_block form_limits prefix.now variables.now j) }
    ensures names_flagged_2 { result ≡ true
        → NamesFlagged (names_before prefix.now variables.now (j + 1)) bound.new highest.new }
{
    let block = block_at(prefix, j);
    if !block_fits(block, variables.len()) {
        return false;
    }
    let first = block.first as usize;
    let end = first + block.count as usize;
    flag_names(&variables[first..end], bound, highest)
}

// The words of a prefix block.
#[derive(Clone, Copy)]
struct BlockWords {
    kind: u32,
    first: u32,
    count: u32,
}

fn block_at(prefix: &[u32], j: usize) -> BlockWords
    requires { j < length prefix.now / prefix_width }
    ensures { result ≡ block_words_at prefix.now j }
{
    let at = PREFIX_WIDTH * j;
    BlockWords {
        kind: prefix[at],
        first: prefix[at + 1],
        count: prefix[at + 2],
    }
}

// Whether a block is of kind 5 or 6 and its range lies within a list of this length, also where it is
// empty.
fn block_fits(block: BlockWords, entries: usize) -> bool
    ensures { result ≡ fitting_block block entries }
{
    let first = block.first as usize;
    let end = first + block.count as usize;
    formula::is_block_kind(block.kind) & !(entries < end)
}

// Flags the names of a list. The result is whether all of them are names and new; the first that is not
// ends it.
fn flag_names(names: &[u32], bound: &mut [u8], highest: &mut u32) -> bool
    requires { length bound.old ≡ 77824 }
    ensures { (before : List ℕ) → NamesFlagged before bound.old highest.old
        → (result ≡ new_names before names.now)
        × (result ≡ true → NamesFlagged (pushed before names.now) bound.new highest.new) }
{
    for x in names {
        if !flag_name(*x, bound, highest) {
            return false;
        }
    }
    true
}

// Flags x if it is a name and not flagged yet.
fn flag_name(x: u32, bound: &mut [u8], highest: &mut u32) -> bool
    requires { length bound.old ≡ 77824 }
    ensures { (names : List ℕ) → NamesFlagged names bound.old highest.old
        → (result ≡ new_name names x) × (result ≡ true → NamesFlagged (x ∷ names) bound.new highest.new) }
{
    if !matrix_check::is_name(x) {
        return false;
    }
    let at = x as usize;
    if bound[at] != 0 {
        return false;
    }
    bound[at] = 1;
    *highest = higher(x, *highest);
    true
}

// The higher of two numbers.
pub fn higher(a: u32, b: u32) -> u32
    ensures { result ≡ max a b }
{
    a.max(b)
}

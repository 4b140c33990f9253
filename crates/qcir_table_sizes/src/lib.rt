// The sizes of the formula table of a QCIR file, without building it.
#![tactic(auto)]

ghost use Rattle.std.specs.Prelude.{true, false, List, ◌≡◌, ℕ, ◌-◌, ◌<◌, ◌≤◌, length, get_or};
ghost use Rattle.formula.specs.Words.{node_count};
ghost use Rattle.acceptance.specs.Limits.{limit};
ghost use Rattle.acceptance.specs.Verdict.{too_many_variables};
ghost use Rattle.qcir.specs.File.{File};
ghost use Rattle.qcir.specs.Table.{table_words, table_list};
ghost use Rattle.qcir_tokens.specs.Tokens.{is_outer};
ghost use Rattle.qcir_tokens.specs.Held.{tokens_from, HoldsNames, number_count, DefinitionsIn, token_limit};
ghost use Rattle.qcir_table_sizes.specs.Excess.{lowest_below};
ghost use Rattle.qcir_table_sizes.specs.Pass.{
  Room,
  Small,
  is_earlier,
  start,
  block_added,
  operand_added,
  input_added,
  gate_step,
  gates_pass,
  output_added,
  outer_step,
  outer_pass,
  file_pass,
};

use qcir_tokens::Tokens;

// How many nodes and list entries a table has, and its lowest block that brings the sum of counts over the limit, if
// there is one.
#[derive(Clone, Copy)]
pub struct TableSizes {
    pub nodes: u32,
    pub entries: u32,
    pub excess: Option<u32>,
}

// What a pass over the tokens has counted: nodes, list entries and, once these pass the limit, the first block at which
// they do. Of the gate line that it stands in: the index of the definition, the variables of its list, and whether no
// input has come yet.
#[derive(Clone, Copy)]
pub struct Pass {
    pub nodes: u32,
    pub entries: u32,
    pub excess: Option<u32>,
    pub line: u32,
    pub bound: u32,
    pub first: bool,
}

// The sizes of the table of the file whose tokens these are. `gates` gives each gate's first definition.
//
// The contract rules out a count by which the limit is passed where it is only reached.
pub fn table_sizes(tokens: &Tokens, gates: &[u16]) -> TableSizes
    requires definitions_in { DefinitionsIn tokens.now.roles.now tokens.now.numbers.now tokens.now.count gates.now }
    ensures { (f : File) → HoldsNames tokens.now.roles.now tokens.now.numbers.now tokens.now.count f
        → (result.nodes ≡ node_count (table_words f))
        × (result.entries ≡ length (table_list f))
        × (result.excess ≡ lowest_below (too_many_variables limit (table_words f)) (node_count (table_words f))) }
{
    let end = outer_end(tokens);
    let inner = inner_pass(tokens, gates, end);
    let whole = outer_pass(tokens.roles, end, inner);
    TableSizes {
        nodes: whole.nodes,
        entries: whole.entries,
        excess: whole.excess,
    }
}

// The index of the first token that is no entry of the free line or a prefix line.
fn outer_end(tokens: &Tokens) -> usize
    ensures { (result ≤ tokens.now.count) × ((j : ℕ) → j < result → is_outer (get_or tokens.now.roles.now j 0) ≡ true)
        × (result < tokens.now.count → is_outer (get_or tokens.now.roles.now result 0) ≡ false) }
{
    tokens.roles[..tokens.count]
        .iter()
        .position(|role| !qcir_tokens::is_outer(*role))
        .unwrap_or(tokens.count)
}

// The gates and then the output, which is token `end`.
fn inner_pass(tokens: &Tokens, gates: &[u16], end: usize) -> Pass
    requires gates_len { (length gates.now ≡ number_count) × (end ≤ tokens.now.count) }
    requires end_value { end < tokens.now.count → is_outer (get_or tokens.now.roles.now end 0) ≡ false }
    ensures small { Small 32769 result }
    ensures by_index { (ps : List ℕ)
        → result ≡ file_pass gates.now end
        (tokens_from tokens.now.roles.now tokens.now.numbers.now ps end (tokens.now.count - end)) }
{
    if tokens.count <= end {
        return start();
    }
    let s = gates_pass(tokens, gates, end + 1);
    let gate = gate_of(tokens.numbers, gates, end);
    add_output(tokens.roles[end], gate, s)
}

// The first definition of token i's number.
fn gate_of(numbers: &[u16], gates: &[u16], i: usize) -> u16
    requires { (i < length numbers.now) × (length gates.now ≡ number_count) }
    ensures { result ≡ get_or gates.now (get_or numbers.now i 0) 0 }
{
    let x = numbers[i] as usize;
    gates[x]
}

// Nothing is counted yet.
fn start() -> Pass
    ensures { result ≡ start }
{
    Pass {
        nodes: 0,
        entries: 0,
        excess: None,
        line: 0,
        bound: 0,
        first: true,
    }
}

// The gate lines, whose tokens are those from `from` on.
fn gates_pass(tokens: &Tokens, gates: &[u16], from: usize) -> Pass
    requires gates_len { (length gates.now ≡ number_count) × (from ≤ tokens.now.count) }
    ensures small { Small tokens.now.count result }
    ensures by_index { (ps : List ℕ)
        → result ≡ gates_pass gates.now from
        (tokens_from tokens.now.roles.now tokens.now.numbers.now ps from (tokens.now.count - from)) start }
{
    let mut s = start();
    for i in from..tokens.count {
        let gate = gate_of(tokens.numbers, gates, i);
        s = add_token(tokens.roles[i], gate, i as u32, s);
    }
    s
}

// Token i, of a gate line. `gate` is one more than the index of the first definition of its number, 0 if there is none.
fn add_token(role: u8, gate: u16, i: u32, s: Pass) -> Pass
    requires { Room 1000000 s }
    ensures { result ≡ gate_step role gate i s }
{
    if qcir_tokens::is_definition(role) {
        return Pass {
            line: i,
            bound: 0,
            first: true,
            ..s
        };
    }
    if qcir_tokens::is_bound(role) {
        return Pass {
            bound: s.bound + 1,
            ..s
        };
    }
    if qcir_tokens::is_input(role) {
        return add_input(role, gate, s);
    }
    Pass {
        nodes: s.nodes + 1,
        ..s
    }
}

// An input; and if variables are quantified, their block over it.
fn add_input(role: u8, gate: u16, s: Pass) -> Pass
    requires { Room 1000000 s }
    ensures { result ≡ input_added role gate s }
{
    let t = add_operand(role, gate, s);
    if s.bound == 0 {
        return t;
    }
    add_block(t)
}

// An input's nodes: a variable node unless it names a gate of an earlier line, its not, and the operator unless it is
// the first.
fn add_operand(role: u8, gate: u16, s: Pass) -> Pass
    requires { Room 1000000 s }
    ensures { result ≡ operand_added role gate s }
{
    let variable = u32::from(!is_earlier(gate, s.line));
    let negation = u32::from(qcir_tokens::is_minus(role));
    let operator = u32::from(!s.first);
    Pass {
        nodes: s.nodes + variable + negation + operator,
        first: false,
        ..s
    }
}

// Whether the first definition stands before token `line`, where this line's stands.
#[tactic(auto, unfolding(crate::specs::Pass::is_earlier))]
fn is_earlier(gate: u16, line: u32) -> bool
    ensures { result ≡ is_earlier gate line }
{
    (1 <= gate) & (gate as u32 <= line)
}

// A block over the variables counted.
#[tactic(auto, unfolding(crate::specs::Pass::block_added))]
fn add_block(s: Pass) -> Pass
    requires { Room 2000000 s }
    ensures { result ≡ block_added s }
{
    let entries = s.entries + s.bound;
    let here = (acceptance::LIMIT < entries as usize).then_some(s.nodes);
    Pass {
        nodes: s.nodes + 1,
        entries,
        excess: s.excess.or(here),
        bound: 0,
        ..s
    }
}

// The output: a variable node unless it names a gate, and its not.
fn add_output(role: u8, gate: u16, s: Pass) -> Pass
    requires { Room 1000000 s }
    ensures { result ≡ output_added role gate s }
{
    let variable = u32::from(gate == 0);
    let negation = u32::from(qcir_tokens::is_minus(role));
    Pass {
        nodes: s.nodes + variable + negation,
        bound: 0,
        ..s
    }
}

// The prefix lines, the last first, so the tokens before token `end` from the last to the first.
fn outer_pass(roles: &[u8], end: usize, inner: Pass) -> Pass
    requires { (end ≤ length roles.now) × (end ≤ token_limit) × Small 32769 inner }
    ensures { result ≡ outer_pass roles.now end inner }
{
    let mut s = inner;
    for i in (0..end).rev() {
        s = add_outer(roles[i], s);
    }
    s
}

// One entry of them: the line's block is complete at its first.
fn add_outer(role: u8, s: Pass) -> Pass
    requires { Room 1000000 s }
    ensures { result ≡ outer_step role s }
{
    if qcir_tokens::is_free(role) {
        return s;
    }
    let t = Pass {
        bound: s.bound + 1,
        ..s
    };
    if role <= 8 {
        return add_block(t);
    }
    t
}

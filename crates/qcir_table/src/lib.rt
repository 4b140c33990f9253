// Writes the formula table of a QCIR file from its tokens: the gate lines in the order of the
// tokens, then the output, then the prefix lines as blocks, the last line first.
#![tactic(auto)]

ghost use Rattle.std.specs.Prelude.{[], ◌≡◌, ◌+◌, ◌-◌, ◌*◌, ◌≤◌, length, get_or};
ghost use Rattle.lists.specs.Choice.{pick};
ghost use Rattle.lists.specs.Parts.{overwrite};
ghost use Rattle.formula.specs.Words.{width};
ghost use Rattle.acceptance.specs.Limits.{limit};
ghost use Rattle.qcir.specs.File.{File};
ghost use Rattle.qcir.specs.Table.{table_words, table_list};
ghost use Rattle.qcir_tokens.specs.Tokens.{is_minus};
ghost use Rattle.qcir_tokens.specs.Held.{HoldsNames, number_count};
ghost use Rattle.qcir_nodes.specs.Nodes.{Room, Wrote, add_literal};
ghost use Rattle.qcir_table.specs.Passes.{
  gates_written,
  output_index,
  starts_line,
  line_block_kind,
  add_line,
  add_if_line,
  lines_written,
  NodesOf,
};
ghost use Rattle.qcir_table.specs.TableFits.{TableFits};

use formula::{EXISTS_BLOCK, FOR_ALL_BLOCK, block_node};
use qcir_nodes::{Progress, write_literal, write_node, write_token};
use qcir_tokens::{EXISTS_LINE, EXISTS_LINE_LAST, NUMBERS, Tokens, is_minus, is_outer};

// The role of a for-all line's only variable, the highest of those that start a line.
const FOR_ALL_LINE_LAST: u8 = 8;

// Writes the gate lines, whose tokens are those from `first` on.
fn write_gates(
    tokens: &Tokens,
    first: usize,
    words: &mut [u32],
    list: &mut [u32],
    nodes: &mut [u16],
) -> Progress
    requires first_le_count { first ≤ tokens.now.count }
    requires nodes_of { NodesOf nodes.old (λ x. 0) }
    requires first_in_bounds { (length (gates_written tokens.now.roles.now tokens.now.numbers.now first (tokens.now.count - first)).draft.words ≤ length words.old)
        × (length (gates_written tokens.now.roles.now tokens.now.numbers.now first (tokens.now.count - first)).draft.words ≤ width * limit) }
    requires first_in_bounds_2 { (length (gates_written tokens.now.roles.now tokens.now.numbers.now first (tokens.now.count - first)).draft.entries ≤ length list.old)
        × (length (gates_written tokens.now.roles.now tokens.now.numbers.now first (tokens.now.count - first)).draft.entries ≤ limit) }
    ensures words_after { words.new
        ≡ overwrite words.old 0
        (gates_written tokens.now.roles.now tokens.now.numbers.now first (tokens.now.count - first)).draft.words }
    ensures list_after { list.new
        ≡ overwrite list.old 0
        (gates_written tokens.now.roles.now tokens.now.numbers.now first (tokens.now.count - first)).draft.entries }
    ensures nodes_of_2 { NodesOf nodes.new
        (gates_written tokens.now.roles.now tokens.now.numbers.now first (tokens.now.count - first)).draft.gate }
    ensures value { result ≡ (gates_written tokens.now.roles.now tokens.now.numbers.now first (tokens.now.count - first)).progress }
{
    let mut p = Progress {
        next: 0,
        listed: 0,
        node: 0,
        kind: 0,
        gate: 0,
        inputs: None,
        first: 0,
    };
    for i in first..tokens.count {
        p = write_token(words, list, nodes, p, tokens.roles[i], tokens.numbers[i]);
    }
    p
}

// The index of the output's token: how many outer tokens stand before it.
fn output_index(tokens: &Tokens) -> usize
    ensures { result ≡ output_index tokens.now.roles.now tokens.now.count }
{
    for (i, role) in tokens.roles[..tokens.count].iter().enumerate() {
        if !is_outer(*role) {
            return i;
        }
    }
    tokens.count
}

// Whether a prefix line starts with this token.
fn starts_line(role: u8) -> bool
    ensures { result ≡ starts_line role }
{
    (EXISTS_LINE <= role) & (role <= FOR_ALL_LINE_LAST)
}

// The kind of a prefix line's block.
fn line_block_kind(role: u8) -> u32
    ensures { result ≡ line_block_kind role }
{
    if role <= EXISTS_LINE_LAST {
        return EXISTS_BLOCK;
    }
    FOR_ALL_BLOCK
}

// Copies the numbers into the list, from entry `at` on.
fn copy_numbers(list: &mut [u32], at: usize, numbers: &[u16])
    requires { at + length numbers.now ≤ length list.old }
    ensures { list.new ≡ overwrite list.old at numbers.now }
{
    for (k, number) in numbers.iter().enumerate() {
        list[at + k] = u32::from(*number);
    }
}

// Writes the block of a prefix line, whose variables are these.
fn write_line(
    words: &mut [u32],
    list: &mut [u32],
    p: Progress,
    role: u8,
    variables: &[u16],
) -> Progress
    requires listed { (p.listed + length variables.now ≤ length list.old)
        × (p.listed + length variables.now ≤ limit) }
    requires room { Room words.old (add_line p role (length variables.now)) }
    ensures wrote { Wrote words.old p (add_line p role (length variables.now)) words.new result }
    ensures list_after { list.new ≡ overwrite list.old p.listed variables.now }
{
    let count = variables.len() as u32;
    copy_numbers(list, p.listed as usize, variables);
    let block = block_node(line_block_kind(role), p.listed, count, p.node);
    Progress {
        listed: p.listed + count,
        ..write_node(words, p, block)
    }
}

// Writes the prefix lines as blocks over what was stored last, the last line first. Their tokens are
// among the outer ones, which are those before `outer`.
fn write_lines(tokens: &Tokens, outer: usize, words: &mut [u32], list: &mut [u32], start: Progress)
    requires outer_in_bounds { outer ≤ tokens.now.count }
    requires outer_in_bounds_2 { (width * (lines_written tokens.now.roles.now tokens.now.numbers.now start 0 outer).progress.next ≤ length words.old)
        × ((lines_written tokens.now.roles.now tokens.now.numbers.now start 0 outer).progress.next ≤ limit) }
    requires outer_in_bounds_3 { ((lines_written tokens.now.roles.now tokens.now.numbers.now start 0 outer).progress.listed ≤ length list.old)
        × ((lines_written tokens.now.roles.now tokens.now.numbers.now start 0 outer).progress.listed ≤ limit) }
    ensures words_after { words.new
        ≡ overwrite words.old (width * start.next)
        (lines_written tokens.now.roles.now tokens.now.numbers.now start 0 outer).words }
    ensures list_after { list.new
        ≡ overwrite list.old start.listed
        (lines_written tokens.now.roles.now tokens.now.numbers.now start 0 outer).entries }
{
    let mut p = start;
    let mut end = outer;
    for i in (0..outer).rev() {
        let role = tokens.roles[i];
        p = write_outer(words, list, p, role, &tokens.numbers[i..end]);
        end = line_end(role, i, end);
    }
}

// Where the line before token i ends: at i if a line starts there, else where the line of i ends.
fn line_end(role: u8, i: usize, end: usize) -> usize
    ensures { result ≡ pick (starts_line role) i end }
{
    if starts_line(role) {
        return i;
    }
    end
}

// Writes the block of a prefix line if one starts at this token; the variables are those from the
// token up to its line's end.
fn write_outer(
    words: &mut [u32],
    list: &mut [u32],
    p: Progress,
    role: u8,
    variables: &[u16],
) -> Progress
    requires room { Room words.old (add_if_line p role (length variables.now)) }
    requires listed { ((add_if_line p role (length variables.now)).progress.listed ≤ length list.old)
        × ((add_if_line p role (length variables.now)).progress.listed ≤ limit) }
    ensures wrote { Wrote words.old p (add_if_line p role (length variables.now)) words.new result }
    ensures list_after { list.new
        ≡ overwrite list.old p.listed (pick (starts_line role) variables.now []) }
{
    if starts_line(role) {
        return write_line(words, list, p, role, variables);
    }
    p
}

// Writes the formula table of the file whose tokens these are: its nodes to the start of
// `words`, its list to the start of `list`.
//
// The contract rules out a writer that takes inputs from right to left, and one by which the first
// prefix line's block is lowest.
pub fn write_table(tokens: &Tokens, words: &mut [u32], list: &mut [u32])
    requires { (f : File) × HoldsNames tokens.now.roles.now tokens.now.numbers.now tokens.now.count f × TableFits f words.old list.old }
    ensures { (f : File) → HoldsNames tokens.now.roles.now tokens.now.numbers.now tokens.now.count f
        → (words.new ≡ overwrite words.old 0 (table_words f))
        × (list.new ≡ overwrite list.old 0 (table_list f)) }
{
    // for each number, one more than the node of the gate that it names, or 0: an `Option` would take twice the room
    let mut nodes = [0u16; NUMBERS];
    let output = output_index(tokens);
    let p = write_gates(tokens, output + 1, words, list, &mut nodes);
    let q = write_output(
        tokens.roles[output],
        tokens.numbers[output],
        words,
        &nodes,
        p,
    );
    write_lines(tokens, output, words, list, q);
}

// Writes the output: the node of its name, and its not.
fn write_output(role: u8, x: u16, words: &mut [u32], nodes: &[u16], p: Progress) -> Progress
    requires nodes_len { length nodes.now ≡ number_count }
    requires room { Room words.old (add_literal p (get_or nodes.now x 0) x (is_minus role)) }
    ensures { Wrote words.old p (add_literal p (get_or nodes.now x 0) x (is_minus role)) words.new result }
{
    write_literal(words, p, nodes[x as usize] as u32, x as u32, is_minus(role))
}

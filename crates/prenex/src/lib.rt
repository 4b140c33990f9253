// Measures formula tables and lifts their quantifiers: two of the public operations.
#![tactic(auto)]

ghost use Rattle.std.specs.Prelude.{◌≡◌, ◌+◌, ◌*◌, ◌-◌, ◌≤◌, eqb, length};
ghost use Rattle.lists.specs.Choice.{pick};
ghost use Rattle.formula.specs.Node.{is_block};
ghost use Rattle.formula.specs.Words.{node_count, node_at, table_of};
ghost use Rattle.refusals.specs.Verdict.{refusal as refusal_of, accepted};
ghost use Rattle.acceptance.specs.Limits.{limit};
ghost use Rattle.acceptance.specs.Verdict.{verdict};
ghost use Rattle.prenex_form.specs.Sizes.{sizes as sizes_of};
ghost use Rattle.prenex_form.specs.Names.{highest_number};
ghost use Rattle.arrays.specs.Held.{Started, Chained, Bound};
ghost use Rattle.block_counts.specs.Counting.{BlockCounts};
ghost use Rattle.prenex.specs.Arrays.{Room, Written};
ghost use Rattle.refusals.specs.Outcome.{refused as refused_of, done as done_of};
ghost use Rattle.prenex.specs.Outcome.{
  table_in,
  no_sizes,
  answer_of,
  measured,
  buffers,
  after,
  lifted,
  SizesWritten,
  FormWritten,
};

use acceptance::LIMIT;
use arrays::Blocks;
use block_counts::Counts;
use first_nodes::Renaming;
use names::NameCounter;
use prefix_writer::PREFIX_WIDTH;
use prenex_form::Sizes;
use refusals::{ACCEPTED, BUFFER_TOO_SHORT, Verdict};

// The verdict and the sizes.
#[derive(Clone, Copy)]
pub struct Answer {
    pub verdict: Verdict,
    pub sizes: Sizes,
}

// Measures a table: its nodes, blocks, bound variables and depth, and what lifting it writes.
//
// The contract rules out a measure that gives sizes of a refused table, and one with invented sizes,
// that answers done and sizes of 0.
pub fn measure(words: &[u32], list: &[u32]) -> Answer
    ensures answer { answer_of result ≡ measured words.now list.now }
    ensures sizes { SizesWritten (table_in words.entry list.entry) (answer_of result) }
{
    let verdict = table_check::check(words, list);
    if verdict.number != ACCEPTED {
        return refused(verdict);
    }
    done(measure_accepted(words, list))
}

// An answer that hands a refusal on, with sizes of 0.
pub fn refused(verdict: Verdict) -> Answer
    ensures { answer_of result ≡ refused_of verdict no_sizes }
{
    let sizes = Sizes {
        n: 0,
        b: 0,
        q: 0,
        depth: 0,
        nodes: 0,
        blocks: 0,
        entries: 0,
    };
    Answer { verdict, sizes }
}

// An output buffer is too short.
fn short() -> Answer
    ensures { answer_of result ≡ refused_of (refusal_of 9 0) no_sizes }
{
    refused(refusals::refusal(BUFFER_TOO_SHORT, 0))
}

fn done(sizes: Sizes) -> Answer
    ensures { answer_of result ≡ done_of sizes }
{
    let verdict = refusals::accepted();
    Answer { verdict, sizes }
}

fn measure_accepted(words: &[u32], list: &[u32]) -> Sizes
    requires { verdict words.now list.now ≡ accepted }
    ensures { result ≡ sizes_of (table_of words.now list.now) }
{
    let mut parents = [0u32; LIMIT];
    let mut levels = [0u16; LIMIT];
    let pass = scopes::fill_scopes(words, list, &mut parents, &mut levels);
    sizes_of(words, list, pass.counts)
}

// The sizes of a table whose counts are known.
fn sizes_of(words: &[u32], list: &[u32], counts: Counts) -> Sizes
    requires list_value { verdict words.now list.now ≡ accepted }
    requires block_counts { BlockCounts (table_of words.now list.now) counts }
    ensures { result ≡ sizes_of (table_of words.now list.now) }
{
    let n = (words.len() / formula::WIDTH) as u32;
    let root = root_blocks(words, list);
    let deepest = counts.deepest;
    Sizes {
        n,
        b: counts.blocks,
        q: counts.bound,
        depth: deepest + root,
        nodes: n - root + counts.added,
        blocks: prefix_count(counts.blocks, deepest),
        entries: counts.bound + counts.inner_bound + counts.inner,
    }
}

// Lifts a table's quantifiers: writes the nodes, the prefix and the variables of its prenex form to
// the starts of three buffers. The form's free variables are the table's, so the list of them is the
// one that listing the table's free variables writes (`same_free` in `PrenexOf`, and the law
// `SameList`).
//
// The contract rules out a lift that answers done and writes nothing, and one that writes to a buffer
// whose room is not tested.
pub fn lift(
    words: &[u32],
    list: &[u32],
    nodes: &mut [u32],
    prefix: &mut [u32],
    variables: &mut [u32],
) -> Answer
    ensures outcome { after result (buffers nodes.new prefix.new variables.new)
        ≡ lifted words.now list.now
        (buffers nodes.old prefix.old variables.old) }
    ensures sizes { SizesWritten (table_in words.entry list.entry) (answer_of result) }
    ensures form { FormWritten (table_in words.entry list.entry)
        (after result (buffers nodes.new prefix.new variables.new)) }
{
    let fault = table_check::check(words, list);
    if fault.number != ACCEPTED {
        return refused(fault);
    }
    lift_accepted(words, list, nodes, prefix, variables)
}

// The same of a table that is known to be accepted. Nothing is written before all three buffers are
// known to be long enough.
pub fn lift_accepted(
    words: &[u32],
    list: &[u32],
    nodes: &mut [u32],
    prefix: &mut [u32],
    variables: &mut [u32],
) -> Answer
    requires { verdict words.now list.now ≡ accepted }
    ensures { after result (buffers nodes.new prefix.new variables.new)
        ≡ lifted words.now list.now
        (buffers nodes.old prefix.old variables.old) }
{
    let mut parents = [0u32; LIMIT];
    let mut levels = [0u16; LIMIT];
    let pass = scopes::fill_scopes(words, list, &mut parents, &mut levels);
    let sizes = sizes_of(words, list, pass.counts);
    if nodes.len() < formula::WIDTH * (sizes.nodes as usize) {
        return short();
    }
    if prefix.len() < PREFIX_WIDTH * (sizes.blocks as usize) {
        return short();
    }
    if variables.len() < sizes.entries as usize {
        return short();
    }
    let mut starts = [0u16; LIMIT];
    let mut bindings = [0u16; LIMIT];
    let bound = pass.counts.bound as usize;
    let highest = bindings::find_bindings(words, list, &parents, &mut starts, &mut bindings, bound);
    let mut firsts = [0u16; LIMIT];
    let mut nexts = [0u16; LIMIT];
    chains::chain_levels(words, list, &levels, &mut firsts, &mut nexts);
    let found = Found {
        words,
        list,
        starts: &starts,
        bindings: &bindings,
        firsts: &firsts,
        nexts: &nexts,
        counts: pass.counts,
        highest,
    };
    write_form(&found, nodes, prefix, variables);
    done(sizes)
}

// An accepted table, and what is found of it before new names are handed out.
#[derive(Clone, Copy)]
struct Found<'a> {
    // The table.
    words: &'a [u32],
    list: &'a [u32],
    // How many entries stand before each block's.
    starts: &'a [u16],
    // The entry that binds each variable node's number.
    bindings: &'a [u16],
    // The inner blocks chained by level.
    firsts: &'a [u16],
    nexts: &'a [u16],
    counts: Counts,
    // The highest number in the table.
    highest: u32,
    ghost started: { Started words.now list.now starts.now },
    ghost bound: { Bound words.now list.now bindings.now },
    ghost chained: { Chained words.now list.now firsts.now nexts.now },
    ghost counted: { BlockCounts (table_of words.now list.now) counts },
    ghost highest_is: { highest ≡ highest_number (table_of words.now list.now) },
    ghost highest_low: { highest ≤ 65535 },
}

// Hands out the new names, and writes the form's nodes, first the table's own and then those of the
// levels, its prefix and its variables.
fn write_form(found: &Found, nodes: &mut [u32], prefix: &mut [u32], variables: &mut [u32])
    requires { Room found.now.words.now found.now.list.now nodes.old prefix.old variables.old }
    ensures { Written found.now.words.now found.now.list.now nodes.old prefix.old variables.old nodes.new prefix.new variables.new }
{
    let mut definitions = [0u32; LIMIT];
    let counter = NameCounter {
        next: found.highest + 1,
    };
    let names = counter.take_run(found.counts.bound);
    let copies = names.counter.take_run(found.counts.inner_bound);
    let n = found.words.len() / formula::WIDTH;
    let first = n - root_blocks(found.words, found.list) as usize;
    let renaming = Renaming {
        words: found.words,
        list: found.list,
        bindings: found.bindings,
        names: names.name,
    };
    first_nodes::write_first(&renaming, nodes, &mut definitions, copies.counter, first);
    let blocks = Blocks {
        words: found.words,
        list: found.list,
        starts: found.starts,
        firsts: found.firsts,
        nexts: found.nexts,
        names: names.name,
        copies: copies.name,
        definitions: &definitions,
    };
    let count = found.counts.blocks as usize;
    let deepest = found.counts.deepest as usize;
    matrix_writer::write_levels(&blocks, nodes, first, deepest);
    prefix_writer::write_prefix(&blocks, prefix, variables, count, deepest);
}

// 1 if the root is a block, else 0.
fn root_blocks(words: &[u32], list: &[u32]) -> u32
    requires { verdict words.now list.now ≡ accepted }
    ensures { result ≡ pick (is_block (node_at words.now list.now (node_count words.now - 1))) 1 0 }
{
    let root = formula::node_at(words, words.len() / formula::WIDTH - 1);
    if formula::is_block_kind(root.kind) {
        return 1;
    }
    0
}

// A table without blocks has no prefix; any other has one block more than levels.
fn prefix_count(blocks: u32, deepest: u32) -> u32
    requires { deepest ≤ limit }
    ensures { result ≡ pick (eqb blocks 0) 0 (deepest + 1) }
{
    if blocks == 0 {
        return 0;
    }
    deepest + 1
}

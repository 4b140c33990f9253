// Lifts formula tables and keeps the blocks that stand in front of them already: a public operation, and
// both ways of lifting behind one call.
#![tactic(auto)]

ghost use Rattle.std.specs.Prelude.{◌≡◌, ◌+◌, ◌*◌, ◌≤◌, drop};
ghost use Rattle.formula.specs.Words.{table_of};
ghost use Rattle.formula.specs.Form.{prefix_width};
ghost use Rattle.refusals.specs.Verdict.{accepted, refusal as refusal_of};
ghost use Rattle.acceptance.specs.Verdict.{verdict};
ghost use Rattle.refusals.specs.Outcome.{refused as refused_of, done as done_of};
ghost use Rattle.prenex.specs.Outcome.{table_in, no_sizes, answer_of, buffers, after};
ghost use Rattle.kept_prefix.specs.Leading.{leading_count};
ghost use Rattle.kept_prefix.specs.Kept.{stands};
ghost use Rattle.kept_prefix.specs.Promise.{KeptOf};
ghost use Rattle.leading_blocks.specs.Flags.{Flags};
ghost use Rattle.leading_blocks.specs.Front.{FrontTo};
ghost use Rattle.front_writer.specs.Written.{Movable};
ghost use Rattle.lift_kept.specs.FormOutcome.{SizesAnswered, FormOwed, FormIn};
ghost use Rattle.lift_kept.specs.Outcome.{kept_form, lifted_kept, outcome_as};
ghost use Rattle.lift_kept.specs.Steps.{with_front, FrontRoom, PrefixPut, Doable, Does};

use formula::WIDTH;
use kept_prefix::Prefix;
use leading_blocks::{Front, NUMBERS};
use prefix_writer::PREFIX_WIDTH;
use prenex::Answer;
use prenex_form::Sizes;
use refusals::{ACCEPTED, BUFFER_TOO_SHORT};

// What is done with the flags: the front is counted, or put before so many lifted blocks.
#[derive(Clone, Copy)]
enum Task {
    Count,
    Put(Front, usize),
}

// Lifts a table and keeps the blocks that stand in front of it: writes the nodes of the lift of what is
// below them, a prefix that begins with them, and its variables, to the starts of three buffers.
//
// The contract rules out a prefix with the blocks in front behind the lifted ones, and a front with a
// name that a new name meets.
pub fn lift(
    words: &[u32],
    list: &[u32],
    nodes: &mut [u32],
    prefix: &mut [u32],
    variables: &mut [u32],
) -> Answer
    ensures outcome { after result (buffers nodes.new prefix.new variables.new)
        ≡ lifted_kept words.now list.now
        (buffers nodes.old prefix.old variables.old) }
    ensures sizes { SizesAnswered (kept_form words.now list.now) (answer_of result) }
    ensures form { FormOwed (FormIn (table_in words.entry list.entry))
        (after result (buffers nodes.new prefix.new variables.new)) }
    ensures kept { result.verdict.number ≡ 0 → KeptOf words.now list.now }
{
    let fault = table_check::check(words, list);
    if fault.number != ACCEPTED {
        return prenex::refused(fault);
    }
    lift_accepted(words, list, nodes, prefix, variables)
}

// A table that is known to be accepted, lifted in either way.
//
// The contract rules out a call that lifts the blocks in front where they are to be kept.
pub fn lift_as(
    words: &[u32],
    list: &[u32],
    way: Prefix,
    nodes: &mut [u32],
    prefix: &mut [u32],
    variables: &mut [u32],
) -> Answer
    requires { verdict words.now list.now ≡ accepted }
    ensures { after result (buffers nodes.new prefix.new variables.new)
        ≡ outcome_as way words.now list.now
        (buffers nodes.old prefix.old variables.old) }
{
    match way {
        Prefix::Lifted => prenex::lift_accepted(words, list, nodes, prefix, variables),
        Prefix::Kept => lift_accepted(words, list, nodes, prefix, variables),
    }
}

// Lifts an accepted table and keeps the blocks in front. Nothing is written before all three buffers are
// known to be long enough.
fn lift_accepted(
    words: &[u32],
    list: &[u32],
    nodes: &mut [u32],
    prefix: &mut [u32],
    variables: &mut [u32],
) -> Answer
    requires { verdict words.now list.now ≡ accepted }
    ensures { after result (buffers nodes.new prefix.new variables.new)
        ≡ lifted_kept words.now list.now
        (buffers nodes.old prefix.old variables.old) }
{
    let front = with_flags(words, list, Task::Count, prefix, variables);
    if prefix.len() < PREFIX_WIDTH * front.blocks {
        return short();
    }
    if variables.len() < front.names {
        return short();
    }
    lift_below(words, list, front, nodes, prefix, variables)
}

// Lifts what is below the front, behind the room that it takes, and puts the front there.
fn lift_below(
    words: &[u32],
    list: &[u32],
    front: Front,
    nodes: &mut [u32],
    prefix: &mut [u32],
    variables: &mut [u32],
) -> Answer
    requires list_value { verdict words.now list.now ≡ accepted }
    requires front_to { FrontTo (table_of words.now list.now) (leading_count (table_of words.now list.now)) front }
    requires front_room { FrontRoom front prefix.old variables.old }
    ensures { after result (buffers nodes.new prefix.new variables.new)
        ≡ lifted_kept words.now list.now
        (buffers nodes.old prefix.old variables.old) }
{
    let end = words.len() - WIDTH * front.taken;
    let at = PREFIX_WIDTH * front.blocks;
    let names = front.names;
    let lifted = prenex::lift_accepted(
        &words[..end],
        list,
        nodes,
        &mut prefix[at..],
        &mut variables[names..],
    );
    let verdict = lifted.verdict;
    if verdict.number != ACCEPTED {
        return lifted;
    }
    let sizes = lifted.sizes;
    let blocks = sizes.blocks as usize;
    with_flags(words, list, Task::Put(front, blocks), prefix, variables);
    done(with_front(sizes, front))
}

// Does a task with the flags of the numbers that stand at a variable node. It has two callers, so that
// the compiler keeps it out of line: the flags and what lifting and writing take then share the stack.
fn with_flags(
    words: &[u32],
    list: &[u32],
    task: Task,
    prefix: &mut [u32],
    variables: &mut [u32],
) -> Front
    requires list_value { verdict words.now list.now ≡ accepted }
    requires doable { Doable (table_of words.now list.now) task prefix.old variables.old }
    ensures { Does (table_of words.now list.now) task
        prefix.old variables.old prefix.new variables.new result }
{
    let mut standing = [false; NUMBERS];
    leading_blocks::flag_standing(words, list, &mut standing);
    match task {
        Task::Count => leading_blocks::find_front(words, list, &standing),
        Task::Put(front, blocks) => {
            put_front(words, list, &standing, front, prefix, variables, blocks);
            front
        }
    }
}

// Writes the front before so many lifted blocks, and moves their ranges behind its names.
fn put_front(
    words: &[u32],
    list: &[u32],
    standing: &[bool],
    front: Front,
    prefix: &mut [u32],
    variables: &mut [u32],
    blocks: usize,
)
    requires list_value { verdict words.now list.now ≡ accepted }
    requires flags { Flags (stands (table_of words.now list.now)) standing.now }
    requires front_to { FrontTo (table_of words.now list.now) (leading_count (table_of words.now list.now)) front }
    requires front_room { FrontRoom front prefix.old variables.old }
    requires movable { Movable blocks front.names (drop (prefix_width * front.blocks) prefix.old) }
    ensures { PrefixPut (table_of words.now list.now) front blocks
        prefix.old variables.old prefix.new variables.new }
{
    let taken = front.taken;
    front_writer::write_front(words, list, standing, taken, prefix, variables);
    let at = PREFIX_WIDTH * front.blocks;
    front_writer::move_ranges(&mut prefix[at..], blocks, front.names);
}

// The sizes of a form by those of the lift of what is below its front.
fn with_front(sizes: Sizes, front: Front) -> Sizes
    requires taken_bound { (sizes.n + front.taken ≤ 4096) × (sizes.b + front.taken ≤ 4096) }
    requires bound_bound { (sizes.q + front.bound ≤ 4096) × (sizes.depth + front.taken ≤ 4098) }
    requires blocks_bound { (sizes.blocks + front.blocks ≤ 65536) × (sizes.entries + front.names ≤ 65536) }
    ensures { result ≡ with_front sizes front }
{
    let taken = front.taken as u32;
    Sizes {
        n: sizes.n + taken,
        b: sizes.b + taken,
        q: sizes.q + front.bound as u32,
        depth: sizes.depth + taken,
        nodes: sizes.nodes,
        blocks: sizes.blocks + front.blocks as u32,
        entries: sizes.entries + front.names as u32,
    }
}

// An output buffer is too short.
fn short() -> Answer
    ensures { answer_of result ≡ refused_of (refusal_of 9 0) no_sizes }
{
    prenex::refused(refusals::refusal(BUFFER_TOO_SHORT, 0))
}

// The sizes of what was written.
fn done(sizes: Sizes) -> Answer
    ensures { answer_of result ≡ done_of sizes }
{
    let verdict = refusals::accepted();
    Answer { verdict, sizes }
}

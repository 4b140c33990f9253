// The C interface of formula tables: measuring, lifting, listing free variables and removing empty
// blocks under C names. include/wakubinryo.h says each promise in words.
#![tactic(auto)]

ghost use Rattle.std.specs.Prelude.{◌≡◌};
ghost use Rattle.free_variables.specs.Outcome.{listed};
ghost use Rattle.prenex.specs.Outcome.{table_in, answer_of, measured, buffers, lifted, SizesWritten, FormWritten};
ghost use Rattle.remove_empty_blocks.specs.Outcome.{removed, TableLeft};
ghost use Rattle.wakubinryo_tables.specs.Words.{
  sizes_answer,
  count_answer,
  lift_outcome,
  count_outcome,
};

use prenex::Answer;
use refusals::Verdict;

// Measures a table: number, position, two users and the seven sizes.
//
// The contract rules out an answer whose sizes stand in another order, and one that says done of a
// refused table.
#[unsafe(no_mangle)]
pub extern "C" fn wakubinryo_measure(words: &[u32], list: &[u32], answer: &mut [u32; 11])
    ensures answer { sizes_answer answer.new ≡ measured words.now list.now }
    ensures sizes { SizesWritten (table_in words.entry list.entry) (sizes_answer answer.new) }
{
    put_answer(answer, prenex::measure(words, list));
}

// Lifts a table into three buffers: number, position, two users and the seven sizes.
//
// The contract rules out a lift with two buffers exchanged, and one that takes the table's words for
// its list.
#[unsafe(no_mangle)]
pub extern "C" fn wakubinryo_lift(
    words: &[u32],
    list: &[u32],
    nodes: &mut [u32],
    prefix: &mut [u32],
    variables: &mut [u32],
    answer: &mut [u32; 11],
)
    ensures outcome { lift_outcome answer.new (buffers nodes.new prefix.new variables.new)
        ≡ lifted words.now list.now
        (buffers nodes.old prefix.old variables.old) }
    ensures sizes { SizesWritten (table_in words.entry list.entry) (sizes_answer answer.new) }
    ensures form { FormWritten (table_in words.entry list.entry)
        (lift_outcome answer.new (buffers nodes.new prefix.new variables.new)) }
{
    put_answer(answer, prenex::lift(words, list, nodes, prefix, variables));
}

// Lists a table's free variables: number, position, two users and how many names were written.
//
// The contract rules out an answer with the position left out, and one about another table.
#[unsafe(no_mangle)]
pub extern "C" fn wakubinryo_free_variables(
    words: &[u32],
    list: &[u32],
    names: &mut [u32],
    answer: &mut [u32; 5],
)
    ensures outcome { count_outcome answer.new names.new
        ≡ listed words.now list.now names.old }
{
    let listed = free_variables::free_variables(words, list, names);
    put_count(answer, listed.verdict, listed.count);
}

// Removes a table's empty blocks: number, position, two users and how many nodes are left.
//
// The contract rules out an answer with the position in place of the nodes left, and one with the
// second user left out.
#[unsafe(no_mangle)]
pub extern "C" fn wakubinryo_remove_empty_blocks(
    words: &[u32],
    list: &[u32],
    nodes: &mut [u32],
    answer: &mut [u32; 5],
)
    ensures outcome { count_outcome answer.new nodes.new
        ≡ removed words.now list.now nodes.old }
    ensures table { TableLeft words.now list.now
        (count_outcome answer.new nodes.new) }
{
    let left = remove_empty_blocks::remove_empty_blocks(words, list, nodes);
    put_count(answer, left.verdict, left.nodes);
}

fn put_answer(answer: &mut [u32; 11], a: Answer)
    ensures { sizes_answer answer.new ≡ answer_of a }
{
    let v = a.verdict;
    let u = v.users;
    let s = a.sizes;
    *answer = [
        v.number, v.position, u.first, u.second, s.n, s.b, s.q, s.depth, s.nodes, s.blocks,
        s.entries,
    ];
}

fn put_count(answer: &mut [u32; 5], verdict: Verdict, count: u32)
    ensures { count_answer answer.new ≡ record { verdict = verdict; sizes = count } }
{
    let u = verdict.users;
    *answer = [verdict.number, verdict.position, u.first, u.second, count];
}

// Lists the free variables of a formula table.
#![tactic(auto)]

ghost use Rattle.std.specs.Prelude.{true, ◌≡◌, ◌+◌, ◌<◌, ◌≤◌, length, set};
ghost use Rattle.lists.specs.Parts.{overwrite};
ghost use Rattle.formula.specs.Words.{node_count, table_of};
ghost use Rattle.formula.specs.FreeVariables.{free_variables};
ghost use Rattle.refusals.specs.Verdict.{accepted};
ghost use Rattle.acceptance.specs.Limits.{limit};
ghost use Rattle.acceptance.specs.Verdict.{verdict};
ghost use Rattle.prenex_form.specs.Names.{highest_number};
ghost use Rattle.arrays.specs.Held.{Bound};
ghost use Rattle.free_variables.specs.Outcome.{after, listing, listed};
ghost use Rattle.free_variables.specs.Steps.{AreSet, Flagged, Clear, flagged};

use acceptance::LIMIT;
use formula::VARIABLE;
use refusals::{ACCEPTED, BUFFER_TOO_SHORT, Verdict};

// How many numbers an array has flags for: those of most tables, or all.
const FEW_NUMBERS: usize = 4096;

const NUMBERS: usize = 65536;

// The verdict, and how many names were written.
#[derive(Clone, Copy)]
pub struct Listed {
    pub verdict: Verdict,
    pub count: u32,
}

// How many flags are set, and a number below which none is.
#[derive(Clone, Copy)]
pub struct FlagsSet {
    pub count: usize,
    pub lowest: usize,
}

// Writes a table's free variables, ascending and once each, to the start of `names`: the numbers with a
// variable node that no block above it covers. They are those that are free in the sense of truth, and
// a form that `lift` writes has the same. Nothing is written unless there is room for all of them;
// room for 2,048 is always enough (`RoomEnough`).
//
// The contract rules out a lister that writes to the buffer on refusal, one that lists a name bound
// wherever it stands, one that counts a name at each of its nodes, one that tests the room by a lower
// count, and, through `find_bindings`, one that leaves out a name because some block binds it.
pub fn free_variables(words: &[u32], list: &[u32], names: &mut [u32]) -> Listed
    ensures outcome { after result names.new
        ≡ listed words.now list.now names.old }
{
    let verdict = table_check::check(words, list);
    if verdict.number != ACCEPTED {
        return Listed { verdict, count: 0 };
    }
    list_accepted(words, list, names)
}

// Lists the free variables of an accepted table, whose binders are found first.
fn list_accepted(words: &[u32], list: &[u32], names: &mut [u32]) -> Listed
    requires { verdict words.now list.now ≡ accepted }
    ensures { after result names.new
        ≡ listing names.old (free_variables (table_of words.now list.now)) }
{
    let mut bindings = [0u16; LIMIT];
    let highest = bind_variables(words, list, &mut bindings);
    list_unbound(words, list, &bindings, highest, names)
}

// Writes the entry that binds each variable node's number, and one more; 0 if it is free. The result is
// the highest number. The other arrays that this takes are given back with it, so that they and the
// flags share the stack.
fn bind_variables(words: &[u32], list: &[u32], bindings: &mut [u16]) -> u32
    requires list_value { verdict words.now list.now ≡ accepted }
    requires bindings_len { length bindings.old ≡ limit }
    ensures { Bound words.now list.now bindings.new
        × (result ≡ highest_number (table_of words.now list.now)) }
{
    let mut parents = [0u32; LIMIT];
    let mut levels = [0u16; LIMIT];
    let pass = scopes::fill_scopes(words, list, &mut parents, &mut levels);
    let mut starts = [0u16; LIMIT];
    let bound = pass.counts.bound as usize;
    bindings::find_bindings(words, list, &parents, &mut starts, bindings, bound)
}

// The same once the binders are known. Where the highest number is low, fewer flags are cleared.
fn list_unbound(
    words: &[u32],
    list: &[u32],
    bindings: &[u16],
    highest: u32,
    names: &mut [u32],
) -> Listed
    requires list_value { verdict words.now list.now ≡ accepted }
    requires bound { Bound words.now list.now bindings.now }
    requires highest_value { highest ≡ highest_number (table_of words.now list.now) }
    ensures { after result names.new
        ≡ listing names.old (free_variables (table_of words.now list.now)) }
{
    if (highest as usize) < FEW_NUMBERS {
        let mut flags = [false; FEW_NUMBERS];
        return list_flagged(words, list, bindings, &mut flags, names);
    }
    let mut flags = [false; NUMBERS];
    list_flagged(words, list, bindings, &mut flags, names)
}

// The same with flags that are clear: those of the free variables are set, and counted, and then
// written if there is room for all of them.
fn list_flagged(
    words: &[u32],
    list: &[u32],
    bindings: &[u16],
    flags: &mut [bool],
    names: &mut [u32],
) -> Listed
    requires list_value { verdict words.now list.now ≡ accepted }
    requires bound { Bound words.now list.now bindings.now }
    requires clear { Clear (table_of words.now list.now) flags.old }
    ensures { after result names.new
        ≡ listing names.old (free_variables (table_of words.now list.now)) }
{
    let found = flag_unbound(words, list, bindings, flags);
    if names.len() < found.count {
        let verdict = refusals::refusal(BUFFER_TOO_SHORT, 0);
        return Listed { verdict, count: 0 };
    }
    write_flagged(flags, found, names);
    let verdict = refusals::accepted();
    let count = found.count as u32;
    Listed { verdict, count }
}

// Sets the flag of each number with a variable node that no block binds.
fn flag_unbound(words: &[u32], list: &[u32], bindings: &[u16], flags: &mut [bool]) -> FlagsSet
    requires list_value { verdict words.now list.now ≡ accepted }
    requires bound { Bound words.now list.now bindings.now }
    requires clear { Clear (table_of words.now list.now) flags.old }
    ensures { Flagged (table_of words.now list.now) flags.new (node_count words.now) result }
{
    let mut found = FlagsSet {
        count: 0,
        lowest: flags.len(),
    };
    for i in 0..words.len() / formula::WIDTH {
        flag_node(words, list, bindings, flags, &mut found, i);
    }
    found
}

// The same of one node. `found` is what the nodes below it came to.
fn flag_node(
    words: &[u32],
    list: &[u32],
    bindings: &[u16],
    flags: &mut [bool],
    found: &mut FlagsSet,
    i: usize,
)
    requires list_value { verdict words.now list.now ≡ accepted }
    requires bound { Bound words.now list.now bindings.now }
    requires i_bound { i < node_count words.now }
    requires flagged { Flagged (table_of words.now list.now) flags.old i found.old }
    ensures { Flagged (table_of words.now list.now) flags.new (i + 1) found.new }
{
    let node = formula::node_at(words, i);
    if node.kind != VARIABLE {
        return;
    }
    if bindings[i] > 0 {
        return;
    }
    set_flag(flags, node.a as usize, found);
}

// Sets the flag of x.
fn set_flag(flags: &mut [bool], x: usize, found: &mut FlagsSet)
    requires x_in_bounds { (x < length flags.old) × (length flags.old ≤ 65536) }
    requires are_set { AreSet flags.old found.old }
    ensures { (flags.new ≡ set flags.old x true) × AreSet flags.new found.new }
{
    let seen = flags[x];
    flags[x] = true;
    if !seen {
        found.count += 1;
        found.lowest = found.lowest.min(x);
    }
}

// Writes the numbers whose flag is set ascending to the start of `names`. It looks at no flag below the
// first or after the last that is set.
fn write_flagged(flags: &[bool], found: FlagsSet, names: &mut [u32])
    requires flags_len_bound { (length flags.now ≤ 65536) × AreSet flags.now found }
    requires count_in_bounds { found.count ≤ length names.old }
    ensures { names.new ≡ overwrite names.old 0 (flagged flags.now) }
{
    let mut at = 0;
    for x in found.lowest..flags.len() {
        if flags[x] {
            names[at] = x as u32;
            at += 1;
            if at == found.count {
                return;
            }
        }
    }
}

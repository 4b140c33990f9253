// Finds the entry that binds each variable node's number (document 01, "Names"), from the parent
// blocks of the nodes: chains the nodes, and walks the chains. A stage of lifting and of listing free
// variables.
#![tactic(auto)]

ghost use Rattle.std.specs.Prelude.{◌≡◌, length};
ghost use Rattle.formula.specs.Words.{table_of};
ghost use Rattle.refusals.specs.Verdict.{accepted};
ghost use Rattle.acceptance.specs.Limits.{limit};
ghost use Rattle.acceptance.specs.Verdict.{verdict};
ghost use Rattle.prenex_form.specs.Names.{bound_count};
ghost use Rattle.arrays.specs.Held.{Parents};
ghost use Rattle.bindings.specs.Found.{Found};

use acceptance::LIMIT;
use binders::TableScopes;

// One scope for each node, and that outside all blocks.
const SCOPES: usize = LIMIT + 1;

// Writes how many entries stand before each block's, and, for each variable node, the entry that binds
// its number and one more; 0 if it is free. The result is the highest number. `bound` is how many
// variables the table's blocks bind.
pub fn find_bindings(
    words: &[u32],
    list: &[u32],
    parents: &[u32],
    starts: &mut [u16],
    bindings: &mut [u16],
    bound: usize,
) -> u32
    requires list_value { verdict words.now list.now ≡ accepted }
    requires parents_len { (length parents.now ≡ limit) × Parents (table_of words.now list.now) parents.now }
    requires bound_value { bound ≡ bound_count (table_of words.now list.now) }
    requires starts_len { (length starts.old ≡ limit) × (length bindings.old ≡ limit) }
    ensures { Found words.now list.now starts.new bindings.new result }
{
    let mut firsts = [0u16; SCOPES];
    let mut nexts = [0u16; LIMIT];
    let highest = chains::chain_members(
        words,
        list,
        parents,
        &mut firsts,
        &mut nexts,
        starts,
        bound,
    );
    let scopes = TableScopes {
        words,
        list,
        parents,
        firsts: &firsts,
        nexts: &nexts,
        starts,
    };
    binders::find_binders(&scopes, highest, bindings);
    highest
}

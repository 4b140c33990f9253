// Writes the first nodes of a prenex form (document 01, "The written form"): those of the table, with
// variables renamed and each inner block replaced by its definition variable, which it hands out.
#![tactic(auto)]

ghost use mathlib.Core.List.{flat_map};
ghost use Rattle.std.specs.Prelude.{◌≡◌, suc, ◌+◌, ◌*◌, ◌≤◌, ◌<◌, length};
ghost use Rattle.lists.specs.Parts.{overwrite};
ghost use Rattle.formula.specs.Node.{variable};
ghost use Rattle.formula.specs.Words.{width, node_count, node_at, table_of, node_words};
ghost use Rattle.prenex_form.specs.Names.{new_name};
ghost use Rattle.prenex_form.specs.Matrix.{kept, renamed, first_nodes};
ghost use Rattle.arrays.specs.Held.{Definitions};
ghost use Rattle.first_nodes.specs.Given.{Given, Counted, DefinedBelow};

use formula::{EXISTS_BLOCK, VARIABLE};
use names::NameCounter;

// An accepted table, and what its variable nodes are renamed by.
#[derive(Clone, Copy)]
pub struct Renaming<'a> {
    // The table.
    pub words: &'a [u32],
    pub list: &'a [u32],
    // The entry that binds each variable node's number.
    pub bindings: &'a [u16],
    // The first new name.
    pub names: u32,
    ghost given: { Given words.now list.now bindings.now names },
}

// Writes the first nodes of the prenex form, of which there are `count`, and the definition variables
// of the inner blocks to their array: a variable renamed, a block replaced by its definition variable,
// and any other node as it is.
pub fn write_first(
    renaming: &Renaming,
    nodes: &mut [u32],
    definitions: &mut [u32],
    counter: NameCounter,
    count: usize,
)
    requires counted { Counted renaming.now.words.now renaming.now.list.now 0 definitions.old counter }
    requires count_value_1 { count ≡ kept (table_of renaming.now.words.now renaming.now.list.now) }
    requires count_value_2 { width * count ≤ length nodes.old }
    ensures nodes_after { nodes.new ≡ overwrite nodes.old 0 (flat_map node_words (first_nodes (table_of renaming.now.words.now renaming.now.list.now))) }
    ensures definitions { Definitions (table_of renaming.now.words.now renaming.now.list.now) definitions.new }
{
    let mut counter = counter;
    for i in 0..count {
        let node = formula::node_at(renaming.words, i);
        if node.kind == VARIABLE {
            let name = new_name(renaming, i, node.a);
            formula::put_node(nodes, i, formula::variable_node(name));
        } else if node.kind >= EXISTS_BLOCK {
            let handed = counter.take();
            definitions[i] = handed.name;
            formula::put_node(nodes, i, formula::variable_node(handed.name));
            counter = handed.counter;
        } else {
            formula::put_node(nodes, i, node);
        }
    }
}

// The new name of the number x at variable node i.
fn new_name(renaming: &Renaming, i: usize, x: u32) -> u32
    requires i_bound_1 { i < node_count renaming.now.words.now }
    requires i_bound_2 { node_at renaming.now.words.now renaming.now.list.now i ≡ variable x }
    ensures { result ≡ new_name (table_of renaming.now.words.now renaming.now.list.now) i x }
{
    let entry = renaming.bindings[i] as u32;
    if entry == 0 {
        return x;
    }
    renaming.names + (entry - 1)
}

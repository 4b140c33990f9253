// Document 01's "Formulas to try": each formula's name and what measuring or lifting says of it; and
// tables whose prenex forms were worked out by hand.
#![tactic(auto)]

mod by_hand;
mod notation;

use formula::WIDTH;
use notation::read;
use prefix_writer::PREFIX_WIDTH;
use prenex::Answer;
use refusals::{ACCEPTED, NOT_A_TREE};
use std::io;

// Each formula's name, its nodes and its list.
const FORMULAS: [(&str, &str, &str); 13] = [
    ("no words", "", ""),
    ("constant 1", "1 1", ""),
    ("exists nothing over constant 0", "1 0, 5 0 0 0", ""),
    ("not exists nothing", "1 1, 5 0 0 0, 3 1", ""),
    ("a block below an exclusive or", BELOW_XOR, "2"),
    (
        "two blocks that bind one number",
        "2 1, 2 1, 6 0 1 1, 4 8 0 2, 5 0 1 3",
        "1",
    ),
    ("a node named twice", "2 1, 4 9 0 0", ""),
    ("variable 0 under a not that names itself", "2 0, 3 1", ""),
    ("a range past a list of one", "2 1, 5 1 1 0", "1"),
    ("an empty range at its end", "2 1, 5 1 0 0", "1"),
    ("a number twice in one block", "2 1, 5 0 2 0", "2, 2"),
    ("variable 65,535", "2 65535", ""),
    ("variable 65,536", "2 65536", ""),
];

// Variable 1 xor (exists 2: 2 and 1), whose form has 15 nodes.
const BELOW_XOR: &str = "2 1, 2 2, 2 1, 4 8 1 2, 5 0 1 3, 4 6 0 4";

fn main(rt: HostRuntime) -> io::Result<()> {
    for (name, nodes, list) in FORMULAS {
        let mut entries = [0u32; 2];
        show_nodes(&rt, name, nodes, read(list, 1, &mut entries))?;
    }
    room(&rt)?;
    large(&rt)?;
    long_list(&rt)?;
    many_variables(&rt)?;
    by_hand::compare_all(&rt)
}

// Prints a formula's name and what measuring says of its table.
fn show_nodes(rt: &impl Print, name: &str, nodes: &str, list: &[u32]) -> io::Result<()> {
    let mut words = [0u32; 6 * WIDTH];
    show_words(rt, name, read(nodes, WIDTH, &mut words), list)
}

fn show_words(rt: &impl Print, name: &str, words: &[u32], list: &[u32]) -> io::Result<()> {
    show_answer(rt, name, prenex::measure(words, list))
}

fn show_answer(rt: &impl Print, name: &str, answer: Answer) -> io::Result<()> {
    let Answer { verdict, sizes } = answer;
    match verdict.number {
        ACCEPTED => println!(rt;
            "{name}: n {}, b {}, q {}, depth {}; form of {} nodes, {} prefix blocks, {} prefix variables",
            sizes.n, sizes.b, sizes.q, sizes.depth, sizes.nodes, sizes.blocks, sizes.entries
        ),
        NOT_A_TREE => println!(rt;
            "{name}: refused, {NOT_A_TREE} at {}, named by {} and {}",
            verdict.position, verdict.users.first, verdict.users.second
        ),
        number => println!(rt; "{name}: refused, {number} at {}", verdict.position),
    }
}

// A table lifted with a word too little room for the nodes of its form, and with just enough.
fn room(rt: &impl Print) -> io::Result<()> {
    let mut table = [0u32; 6 * WIDTH];
    let mut short = [0u32; 15 * WIDTH - 1];
    let mut nodes = [0u32; 15 * WIDTH];
    let mut prefix = [0u32; 2 * PREFIX_WIDTH];
    let mut variables = [0u32; 3];
    let words = read(BELOW_XOR, WIDTH, &mut table);
    show_answer(
        rt,
        "a block below an exclusive or, a word too little room",
        prenex::lift(words, &[2], &mut short, &mut prefix, &mut variables),
    )?;
    show_answer(
        rt,
        "a block below an exclusive or, just enough room",
        prenex::lift(words, &[2], &mut nodes, &mut prefix, &mut variables),
    )
}

// Five words of a chain, 4,096 nodes of it and all 4,097.
fn large(rt: &impl Print) -> io::Result<()> {
    let mut words = [0u32; 4097 * WIDTH];
    chain(&mut words);
    show_words(rt, "five words", &words[..5], &[])?;
    show_words(rt, "4,096 nodes", &words[..4096 * WIDTH], &[])?;
    show_words(rt, "4,097 nodes", &words, &[])
}

// Lists of 4,096 and 4,097 entries.
fn long_list(rt: &impl Print) -> io::Result<()> {
    let list = [0u32; 4097];
    show_nodes(rt, "a list of 4,096", "2 1", &list[..4096])?;
    show_nodes(rt, "a list of 4,097", "2 1", &list)
}

// Two blocks over one range of 2,048 entries, and over one of 2,049.
fn many_variables(rt: &impl Print) -> io::Result<()> {
    let mut list = [0u32; 2049];
    for (entry, x) in list.iter_mut().zip(1..2050) {
        *entry = x;
    }
    show_nodes(
        rt,
        "two blocks of 2,048",
        "2 1, 5 0 2048 0, 5 0 2048 1",
        &list,
    )?;
    show_nodes(
        rt,
        "two blocks of 2,049",
        "2 1, 5 0 2049 0, 5 0 2049 1",
        &list,
    )
}

// Variable 1 under as many not nodes as there is room for.
fn chain(words: &mut [u32; 4097 * WIDTH]) {
    formula::put_node(words, 0, formula::variable_node(1));
    for below in 0..4096 {
        formula::put_node(words, below as usize + 1, formula::negation_node(below));
    }
}

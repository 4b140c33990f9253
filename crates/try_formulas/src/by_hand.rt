// Tables and their prenex forms, worked out by hand from document 01 ("Names", "The written form").
use crate::notation::read;
use formula::WIDTH;
use prefix_writer::PREFIX_WIDTH;
use std::io;

// Room for the largest table and the largest form here, in words.
const TABLE: usize = 9 * WIDTH;

const FORM: usize = 32 * WIDTH;

// What the buffers hold before a lift: a word that no form has.
const UNWRITTEN: u32 = 4294967295;

// A table, and the form that it has.
#[derive(Clone, Copy)]
struct Case {
    name: &'static str,
    nodes: &'static str,
    list: &'static str,
    form: &'static str,
    prefix: &'static str,
    variables: &'static str,
}

pub fn compare_all(rt: &impl Print) -> io::Result<()> {
    for case in &[TWO_LEVELS, TWO_BLOCKS, FOR_ALL_ROOT] {
        compare(rt, case)?;
    }
    Ok(())
}

// 4 implies (exists 2: 2 xor (for all 7: 7 or 2)).
//
// The for-all block, node 5, is on level 2, and the exists block, node 7, on level 1. F is 7. New
// names in node order: 7 becomes 8, 2 becomes 9, and 4 is free. The copy of 8 is 10 and that of 9 is
// 11. The definition variables are 12 for node 5 and 13 for node 7. The root is no block, so level 1
// is for-all and level 2 exists.
//
// The form: the table's nodes; node 7's constraint, (13 iff its body) and (13 or (9 iff 11)), joined to
// them by and; node 5's, (12 iff its body) and (12 implies (8 iff 10)), which implies all before it.
// The prefix: for all 11, exists 9, 13, 10, for all 8, 12.
const TWO_LEVELS: Case = Case {
    name: "two levels",
    nodes: "2 4, 2 2, 2 7, 2 2, 4 14 2 3, 6 0 1 4, 4 6 1 5, 5 1 1 6, 4 11 0 7",
    list: "7, 2",
    form: "2 4, 2 9, 2 8, 2 9, 4 14 2 3, 2 12, 4 6 1 5, 2 13, 4 11 0 7, \
          2 13, 4 9 9 6, 2 9, 2 11, 4 9 11 12, 2 13, 4 14 14 13, 4 8 10 15, 4 8 8 16, \
          2 12, 4 9 18 4, 2 8, 2 10, 4 9 20 21, 2 12, 4 11 23 22, 4 8 19 24, 4 11 25 17",
    prefix: "6 0 1, 5 1 3, 6 4 2",
    variables: "11, 9, 13, 10, 8, 12",
};

// (exists 1, 3: 1 and 3) iff (for all 3: 3 or 2), with one list entry 3 in both ranges.
//
// Both blocks, nodes 3 and 7, are on level 1. F is 3. New names in node and list order: the exists
// block's 1 becomes 4 and its 3 becomes 5, the for-all block's 3 becomes 6, and 2 is free. The copies
// of 4, 5 and 6 are 7, 8 and 9. The definition variables are 10 for node 3 and 11 for node 7. The
// root is no block, so level 1 is for-all.
//
// The form: the table's nodes; node 3's constraint, (10 iff its body) and (10 or ((4 iff 7) and (5 iff
// 8))); node 7's, (11 iff its body) and (11 implies (6 iff 9)); the two joined by and, and both to the
// nodes by and. The prefix: for all 7, 8, 9, exists 4, 5, 10, 6, 11.
const TWO_BLOCKS: Case = Case {
    name: "two blocks on one level",
    nodes: "2 1, 2 3, 4 8 0 1, 5 0 2 2, 2 3, 2 2, 4 14 4 5, 6 1 1 6, 4 9 3 7",
    list: "1, 3",
    form: "2 4, 2 5, 4 8 0 1, 2 10, 2 6, 2 2, 4 14 4 5, 2 11, 4 9 3 7, \
          2 10, 4 9 9 2, 2 4, 2 7, 4 9 11 12, 2 5, 2 8, 4 9 14 15, 4 8 13 16, \
          2 10, 4 14 18 17, 4 8 10 19, \
          2 11, 4 9 21 6, 2 6, 2 9, 4 9 23 24, 2 11, 4 11 26 25, 4 8 22 27, 4 8 20 28, 4 8 8 29",
    prefix: "6 0 3, 5 3 5",
    variables: "7, 8, 9, 4, 5, 10, 6, 11",
};

// For all 1, 2: 1 or (exists 3, 1: (1 xor 2) iff 3), with one list entry 1 in both ranges.
//
// The exists block, node 6, is on level 1; the root, node 8, is no inner block. F is 3. New names in
// node and list order: the exists block's 3 becomes 4 and its 1 becomes 5, the root's 1 becomes 6 and
// its 2 becomes 7. The copies of 4 and 5 are 8 and 9; the root's variables have none. The definition
// variable of node 6 is 10. Level 1 takes the root's quantifier, for-all.
//
// The form: the table's nodes but the root; node 6's constraint, (10 iff its body) and (10 or ((4 iff
// 8) and (5 iff 9))), joined to them by and. The prefix: for all 6, 7, 8, 9, exists 4, 5, 10.
const FOR_ALL_ROOT: Case = Case {
    name: "an exists block under a for-all root",
    nodes: "2 1, 2 1, 2 2, 4 6 1 2, 2 3, 4 9 3 4, 5 0 2 5, 4 14 0 6, 6 1 2 7",
    list: "3, 1, 2",
    form: "2 6, 2 5, 2 7, 4 6 1 2, 2 4, 4 9 3 4, 2 10, 4 14 0 6, \
          2 10, 4 9 8 5, 2 4, 2 8, 4 9 10 11, 2 5, 2 9, 4 9 13 14, 4 8 12 15, \
          2 10, 4 14 17 16, 4 8 9 18, 4 8 7 19",
    prefix: "6 0 4, 5 4 3",
    variables: "6, 7, 8, 9, 4, 5, 10",
};

// Prints whether lifting a table writes the form, and where it does not, the first word.
fn compare(rt: &impl Print, case: &Case) -> io::Result<()> {
    let mut words = [0u32; TABLE];
    let mut entries = [0u32; 3];
    let mut nodes = [UNWRITTEN; FORM];
    let mut prefix = [UNWRITTEN; 4 * PREFIX_WIDTH];
    let mut variables = [UNWRITTEN; 12];
    prenex::lift(
        read(case.nodes, WIDTH, &mut words),
        read(case.list, 1, &mut entries),
        &mut nodes,
        &mut prefix,
        &mut variables,
    );
    let name = case.name;
    if is_as(rt, name, "nodes", case.form, WIDTH, &nodes)?
        && is_as(rt, name, "prefix", case.prefix, PREFIX_WIDTH, &prefix)?
        && is_as(rt, name, "variables", case.variables, 1, &variables)?
    {
        println!(rt; "{name}: as worked out by hand")?;
    }
    Ok(())
}

// Whether a buffer holds these rows and is unwritten after them. Prints the first word that differs.
fn is_as(
    rt: &impl Print,
    name: &str,
    part: &str,
    rows: &str,
    width: usize,
    written: &[u32],
) -> io::Result<bool> {
    let mut words = [0u32; FORM];
    let expected = read(rows, width, &mut words);
    for (place, is) in written.iter().enumerate() {
        let should = expected.get(place).unwrap_or(&UNWRITTEN);
        if is != should {
            println!(rt; "{name}: {part}, word {place}, is {is} and not {should}")?;
            return Ok(false);
        }
    }
    Ok(true)
}

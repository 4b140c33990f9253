// Text and figures on standard output, for the programs here.
#![tactic(auto)]

use std::io;

// The columns of a line that shows a figure: a name of up to 17 bytes, a space and five digits.
const COLUMNS: usize = 23;

pub fn text(rt: &impl Print, bytes: &[u8]) -> io::Result<()> {
    rt.write_all(bytes)
}

// A line of its own: a name, and a number whose last digit stands in the last column.
pub fn figure(rt: &impl Print, name: &[u8], x: u32) -> io::Result<()> {
    text(rt, name)?;
    gap(rt, name.len(), count_digits(x))?;
    println!(rt; "{x}")
}

// The spaces between a name and digits of these lengths; none where they fill the line.
fn gap(rt: &impl Print, name: usize, digits: usize) -> io::Result<()> {
    let spaces = [b' '; COLUMNS];
    let from = name.saturating_add(digits).min(COLUMNS);
    text(rt, &spaces[from..])
}

// How many digits a number has in decimal; 0 has one.
fn count_digits(x: u32) -> usize {
    x.checked_ilog10().map_or(1, |log| log as usize + 1)
}

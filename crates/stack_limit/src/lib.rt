// How much stack the process may use.

#![tactic(auto)]

ghost use Rattle.std.specs.Io.{ReadsAtMost};

use std::io::Read;
use std::rt::Files;
use std::{fs, io, str};

// What stands for no limit, C's RLIM_INFINITY.
pub const NO_LIMIT: u64 = 0xFFFF_FFFF_FFFF_FFFF;

// Where Linux tells a process its limits, a line for each, and how the line of this one begins. Its soft limit comes next.
const LIMITS: &str = "/proc/self/limits";

const STACK: &str = "Max stack size";

// The most bytes of stack that this process may use, as getrlimit says; the highest number if there is no limit, or it can't be told.
pub fn stack_limit(files: &impl Files) -> u64 {
    let mut bytes = [0u8; 4096];
    match read_limits(files, &mut bytes) {
        Ok(length) => limit_in(&bytes[..length]),
        Err(_) => NO_LIMIT,
    }
}

// One read, which gives all of them.
fn read_limits(files: &impl Files, bytes: &mut [u8]) -> io::Result<usize>
    ensures { ReadsAtMost result bytes.new }
{
    let mut file = fs::open(files, LIMITS)?;
    file.read(bytes)
}

fn limit_in(bytes: &[u8]) -> u64 {
    match str::from_utf8(bytes) {
        Ok(text) => stack_limit_in(text),
        Err(_) => NO_LIMIT,
    }
}

fn stack_limit_in(text: &str) -> u64 {
    for line in text.lines() {
        if let Some(columns) = line.strip_prefix(STACK) {
            return first_number(columns);
        }
    }
    NO_LIMIT
}

// The number that the first word says. No limit is a word that says none.
fn first_number(columns: &str) -> u64 {
    match columns.split_whitespace().next() {
        Some(word) => word.parse().unwrap_or(NO_LIMIT),
        None => NO_LIMIT,
    }
}

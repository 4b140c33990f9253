// What the programs that lift a file share: reading a QCIR text, from the file that the argument names or from
// standard input, and printing what one call makes of it; or saying on standard error why the text is refused.
#![tactic(auto)]

use form_writer::Format;
use lift_text::TEXT;
use refusals::ACCEPTED;
use stack_limit::NO_LIMIT;
use std::io;

// The bytes of stack that a program needs, as measured: the text to be written takes most of them.
const STACK: u64 = 4608 * 1024;

// Lifts the file that the command line names, if there is stack enough to do it.
//
// `lift_input` is not to be put in line, and two calls of it keep a compiler from that which takes no
// such hint: the stack that it takes would then be taken before the test.
pub fn run(rt: &HostRuntime, usage: &[u8], format: Format) -> io::Result<()> {
    let limit = stack_limit::stack_limit(rt);
    if limit == NO_LIMIT {
        return lift_input(rt, usage, format);
    }
    if limit < STACK {
        return rt.eprintln("lifting needs 4608 KiB of stack: ulimit -s 4608");
    }
    lift_input(rt, usage, format)
}

#[inline(never)]
fn lift_input(rt: &HostRuntime, usage: &[u8], format: Format) -> io::Result<()> {
    let mut text = [0u8; command_line::ROOM];
    if let Some(length) = command_line::read_input(rt, usage, &mut text)? {
        lift_and_print(rt, &text[..length], format)?;
    }
    Ok(())
}

fn lift_and_print(rt: &HostRuntime, text: &[u8], format: Format) -> io::Result<()> {
    let mut written = [0u8; TEXT];
    lift_to(rt, text, format, &mut written)
}

fn lift_to(rt: &HostRuntime, text: &[u8], format: Format, written: &mut [u8]) -> io::Result<()> {
    let answer = lift_text::lift_text(text, format, written);
    let verdict = answer.verdict;
    if verdict.number != ACCEPTED {
        return command_line::refuse(rt, text, verdict.number, verdict.position);
    }
    let n = answer.bytes;
    match rt.write_all(&written[..n]) {
        Ok(()) => Ok(()),
        Err(error) => command_line::fail(rt, b"standard output", &error),
    }
}

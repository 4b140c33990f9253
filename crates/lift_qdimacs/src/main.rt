// Reads a QCIR text, from the file that its argument names or from standard input, and prints the QDIMACS
// text of its prenex form; or says on standard error why the text is refused.
#![tactic(auto)]

use form_writer::Format;
use std::io;

fn main(rt: HostRuntime) -> io::Result<()> {
    lift_program::run(&rt, b"usage: lift_qdimacs [FILE]\n", Format::Qdimacs)
}

// Reads a QCIR text, from the file that its argument names or from standard input, and prints what
// measuring says of its table; or says on standard error why the text is refused.
#![tactic(auto)]

use prenex_form::Sizes;
use refusals::ACCEPTED;
use std::io;

fn main(rt: HostRuntime) -> io::Result<()> {
    let mut text = [0u8; command_line::ROOM];
    if let Some(length) = command_line::read_input(
        &rt,
        b"usage: measure_qcir [FILE]\n",
        &mut text,
    )? {
        show_answer(&rt, &text[..length])?;
    }
    Ok(())
}

fn show_answer(rt: &HostRuntime, text: &[u8]) -> io::Result<()> {
    let a = lift_text::measure_text(text);
    let verdict = a.verdict;
    if verdict.number != ACCEPTED {
        return command_line::refuse(rt, text, verdict.number, verdict.position);
    }
    show_sizes(rt, a.sizes)
}

fn show_sizes(rt: &HostRuntime, s: Sizes) -> io::Result<()> {
    printing::figure(rt, b"nodes", s.n)?;
    printing::figure(rt, b"blocks", s.b)?;
    printing::figure(rt, b"bound variables", s.q)?;
    printing::figure(rt, b"quantifier depth", s.depth)?;
    printing::figure(rt, b"lifted: nodes", s.nodes)?;
    printing::figure(rt, b"lifted: blocks", s.blocks)?;
    printing::figure(rt, b"lifted: variables", s.entries)
}

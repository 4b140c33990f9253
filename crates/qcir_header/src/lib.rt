// The header of a QCIR text: where it ends.
#![tactic(auto)]

ghost use Rattle.std.specs.Prelude.{◌≡◌};
ghost use Rattle.qcir_header.specs.Header.{header_end};

pub const HEADER: [u8; 9] = *b"#QCIR-G14";

// The end of the header from a position on; where the text has no header there, the first byte at which it differs, or the
// text's end.
//
// The contract rules out another header.
pub fn header_end(text: &[u8], from: usize) -> usize
    ensures { result ≡ header_end text.now from }
{
    for (i, byte) in HEADER.iter().enumerate() {
        let at = from + i;
        if text.len() <= at || text[at] != *byte {
            return at;
        }
    }
    from + HEADER.len()
}

// A text put to a sink in pieces.

ghost use Rattle.std.specs.Prelude.{◌≤◌, OnOk, OnErr};
ghost use Rattle.rm_outside.specs.Outside.{HasRisen, Gains, GainsPart};

use rm_outside::{PutFault, Sink};

/// How many bytes a piece has; the last one may have fewer.
pub const PIECE: usize = 4096;

/// Puts a text in pieces. The first fault ends it, and the rest isn't tried.
pub fn put_text<O: Sink>(out: &mut O, text: &[u8]) -> Result<(), PutFault>
    ensures ok { OnOk result (Gains (O.written out.old) (O.written out.new) text.now) }
    ensures later { O.faults out.old ≤ O.faults out.new }
    ensures cause { OnErr result (HasRisen (O.faults out.old) (O.faults out.new)) }
    ensures part { OnErr result (GainsPart (O.written out.old) (O.written out.new) text.now) }
{
    let mut start = 0;
    while start < text.len() {
        let end = if text.len() - start < PIECE {
            text.len()
        } else {
            start + PIECE
        };
        match out.put(&text[start..end]) {
            Ok(()) => {}
            Err(fault) => return Err(fault),
        }
        start = end;
    }
    Ok(())
}

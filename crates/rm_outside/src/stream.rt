// A sink over a stream of the system.

ghost use Rattle.std.specs.Prelude.{◌≡◌, OnOk, OnErr};
ghost use Rattle.rm_outside.specs.Outside.{Gains, GainsPart};

use crate::{PutFault, Sink};
use std::io::{ErrorKind, Write};
use std::marker::Model;

/// A sink over a writer. What was written is what the writer tells that it holds, and the faults are the puts that failed.
#[derive(Drop)]
pub struct StreamSink<W: Write + Drop> {
    writer: W,
    faults: u64,
}

impl<W: Write + Drop> Model for StreamSink<W> {
    ghost use Rattle.rm_outside.specs.Outside.{StreamData};

    ghost Value = { StreamData };

    ghost view = { λ s. record { written = W.contents s.writer; faults = s.faults } };
}

impl<W: Write + Drop> StreamSink<W> {
    /// A sink over a writer, without faults so far.
    pub fn new(writer: W) -> StreamSink<W>
        ensures { result ≡ record { written = W.contents writer; faults = 0 } }
    {
        StreamSink { writer, faults: 0 }
    }
}

impl<W: Write + Drop> Sink for StreamSink<W> {
    ghost written = { λ s. s.written };

    ghost faults = { λ s. s.faults };

    fn put(&mut self, piece: &[u8]) -> Result<(), PutFault> {
        match send(&mut self.writer, piece) {
            Ok(()) => Ok(()),
            Err(fault) => {
                self.faults = self.faults.saturating_add(1);
                Err(fault)
            }
        }
    }
}

// Writes a piece and flushes the writer. A failed flush is a fault too, though the whole piece was written.
fn send<W: Write>(writer: &mut W, piece: &[u8]) -> Result<(), PutFault>
    ensures ok { OnOk result (Gains (W.contents writer.old) (W.contents writer.new) piece.now) }
    ensures part { OnErr result (GainsPart (W.contents writer.old) (W.contents writer.new) piece.now) }
{
    write_whole(writer, piece)?;
    if writer.flush().is_err() {
        return Err(PutFault::Failed);
    }
    Ok(())
}

// Writes a piece. A write that was interrupted is tried again; any other fault ends it, and then some front of the piece was written.
fn write_whole<W: Write>(writer: &mut W, piece: &[u8]) -> Result<(), PutFault>
    ensures ok { OnOk result (Gains (W.contents writer.old) (W.contents writer.new) piece.now) }
    ensures part { OnErr result (GainsPart (W.contents writer.old) (W.contents writer.new) piece.now) }
{
    let mut done = 0;
    for _ in 0..u64::MAX {
        if done == piece.len() {
            return Ok(());
        }
        match writer.write(&piece[done..]) {
            Ok(0) => return Err(PutFault::Failed),
            Ok(n) => {
                done += n;
                continue;
            }
            Err(e) => {
                if e.kind() != ErrorKind::Interrupted {
                    return Err(PutFault::Failed);
                }
            }
        }
    }
    Err(PutFault::Failed)
}

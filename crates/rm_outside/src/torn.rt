// A sink in memory that tears what doesn't fit.

ghost use Rattle.std.specs.Prelude.{◌≡◌, ◌≤◌, [], nat_lt, Some, IfOk, OnOk, OnErr, is_err, length};
ghost use Rattle.rm_outside.specs.Outside.{HasRisen, Gains, GainsPart};
ghost use Rattle.rm_outside.specs.Memory.{after_torn_put};

use crate::{NoMemory, PutFault, Sink};
use std::alloc::Global;
use std::marker::Model;

/// A sink in memory with so much room. Of a put that doesn't fit it takes as much as there is room for, and the put fails, as a disk does that
/// gets full: so each later put of at least one byte fails too.
#[derive(Drop)]
pub struct TornSink {
    bytes: Vec<u8>,
    room: usize,
    faults: u64,
}

impl Model for TornSink {
    ghost use Rattle.std.specs.Prelude.{◌+◌, ◌≤◌, vec_len, vec_capacity};
    ghost use Rattle.rm_outside.specs.Memory.{TornData};

    ghost Value = { TornData };

    ghost view = { λ s. record { bytes = s.bytes.items; room = s.room; faults = s.faults } };

    ghost invariant = { λ s. vec_len s.bytes + s.room ≤ vec_capacity s.bytes };
}

impl TornSink {
    /// An empty sink with room for so many bytes. It takes the memory of all puts, and only for want of it is there none.
    pub fn new(alloc: Global, room: usize) -> Result<TornSink, NoMemory>
        ensures { IfOk result (λ sink. sink ≡ record { bytes = []; room = room; faults = 0 }) }
    {
        let bytes = Vec::with_capacity(alloc, room)?;
        Ok(TornSink {
            bytes,
            room,
            faults: 0,
        })
    }

    /// What it took, the part of a torn put too.
    pub fn bytes(&self) -> &[u8]
        ensures { result.now ≡ self.now.bytes }
    {
        &self.bytes
    }
}

impl Sink for TornSink {
    ghost written = { λ s. Some s.bytes };

    ghost faults = { λ s. s.faults };

    fn put(&mut self, piece: &[u8]) -> Result<(), PutFault>
        // A put fails exactly where the piece doesn't fit.
        ensures failed { is_err result ≡ nat_lt self.old.room (length piece.now) }
        ensures state { self.new ≡ after_torn_put self.old piece.now result }

        // As of any sink.
        ensures ok { OnOk result (Gains (Some self.old.bytes) (Some self.new.bytes) piece.now) }
        ensures later { self.old.faults ≤ self.new.faults }
        ensures cause { OnErr result (HasRisen self.old.faults self.new.faults) }
        ensures part { OnErr result (GainsPart (Some self.old.bytes) (Some self.new.bytes) piece.now) }
    {
        let taken = piece.len().min(self.room);
        if self.bytes.extend_from_slice(&piece[..taken]).is_err() {
            unreachable!();
        }
        self.room -= taken;
        if taken == piece.len() {
            return Ok(());
        }
        self.faults = self.faults.saturating_add(1);
        Err(PutFault::Failed)
    }
}

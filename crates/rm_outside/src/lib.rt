//! Shelves, from which files are fetched, and sinks, to which text is put.
#![tactic(auto)]

ghost use Rattle.std.specs.Prelude.{◌≡◌, ◌≤◌, ℕ, Option, Err, option_map, IsOk, OnOk, OnErr};
ghost use Rattle.rm_base.specs.Text.{Text, Files};
ghost use Rattle.rm_outside.specs.Outside.{HasRisen, IsTold, blame_after, Gains, GainsPart};
ghost use Rattle.rm_outside.specs.declared.FetchFault.TheVariants.{Failed};

pub mod folder;
pub mod memory;
pub mod stream;
pub mod torn;

use std::alloc::{AllocError, Global};

/// Want of memory, where it is the only refusal.
pub type NoMemory = AllocError;

/// What a fetch answers: the file's bytes, that it is missing, or that it has more bytes than the limit.
#[derive(Debug, Drop)]
pub enum Fetched {
    Bytes(Vec<u8>),
    Absent,
    Long,
}

/// Why a fetch gave no answer: the system failed, or memory is wanting.
#[derive(Clone, Copy, Debug, PartialEq, Eq)]
pub enum FetchFault {
    Failed,
    NoMemory,
}

/// Why a piece was not put.
#[derive(Clone, Copy, Debug, PartialEq, Eq)]
pub enum PutFault {
    Failed,
}

/// Where files are fetched by name.
pub trait Shelf {
    /// The files by their names, where the shelf tells them.
    ghost files: { Self → Option Files };

    /// How often the system has failed. A count that has come to the last value of a `u64` stays there.
    ghost faults: { Self → ℕ };

    /// The name of the fetch that failed last, or none, where the shelf tells it.
    ghost blame: { Self → Option (Option Text) };

    /// The bytes of the file of this name, if they are no more than the limit. `Failed` comes only where the faults rose in this call.
    fn fetch(&mut self, alloc: Global, name: &str, limit: u64) -> Result<Fetched, FetchFault>
        ensures files { files self.new ≡ files self.old }
        ensures told { IsTold (files self.old) name.now limit result }
        ensures later { faults self.old ≤ faults self.new }
        ensures cause { result ≡ Err Failed → HasRisen (faults self.old) (faults self.new) }
        ensures blame { blame self.new ≡ option_map (blame_after name.now result) (blame self.old) };
}

/// Where text is put.
pub trait Sink {
    /// What was written, where the sink tells it.
    ghost written: { Self → Option Text };

    /// How often the system has failed. A count that has come to the last value of a `u64` stays there.
    ghost faults: { Self → ℕ };

    /// Writes a piece. `Failed` comes only where the faults rose in this call, and then some front of the piece was written.
    fn put(&mut self, piece: &[u8]) -> Result<(), PutFault>
        ensures ok { OnOk result (Gains (written self.old) (written self.new) piece.now) }
        ensures later { faults self.old ≤ faults self.new }
        ensures cause { OnErr result (HasRisen (faults self.old) (faults self.new)) }
        ensures part { OnErr result (GainsPart (written self.old) (written self.new) piece.now) };
}

/// A sink that takes every piece and tells nothing.
#[derive(Drop)]
pub struct NullSink;

impl Sink for NullSink {
    ghost use Rattle.std.specs.Prelude.{None};

    ghost written = { λ _. None };

    ghost faults = { λ _. 0 };

    fn put(&mut self, _piece: &[u8]) -> Result<(), PutFault>
        ensures taken { IsOk result }
    {
        Ok(())
    }
}

#[cfg(test)]
mod tests;

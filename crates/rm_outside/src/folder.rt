// A shelf over the file system.

ghost use Rattle.std.specs.Prelude.{Some, None, Ok, ◌≡◌, ◌≢◌, IfSome, IfOk, IfErr, OnOk, IsOkAnd, IsErrAnd};
ghost use Rattle.std.specs.IoError.{error_kind};
ghost use Rattle.rm_outside.specs.Outside.{Tells, IsFaultOf};
ghost use Rattle.rm_outside.specs.declared.Fetched.TheVariants.{Absent};

use crate::{FetchFault, Fetched, Shelf};
use std::alloc::Global;
use std::io::{ErrorKind, Read};
use std::marker::Model;
use std::rt::Files;
use std::{fs, io};

/// A shelf whose names are paths. It tells neither files nor blame, and counts the system's faults.
#[derive(Drop)]
pub struct FolderShelf<'a, R: Files> {
    rt: &'a R,
    faults: u64,
}

impl<'a, R: Files> Model for FolderShelf<'a, R> {
    ghost use Rattle.std.specs.Prelude.{ℕ};

    ghost Value = { ℕ };

    ghost view = { λ s. s.faults };
}

impl<'a, R: Files> FolderShelf<'a, R> {
    /// A shelf over the file system of a runtime, without faults so far.
    pub fn new(rt: &'a R) -> FolderShelf<'a, R>
        ensures { result ≡ 0 }
    {
        FolderShelf { rt, faults: 0 }
    }
}

impl<'a, R: Files> Shelf for FolderShelf<'a, R> {
    ghost files = { λ _. None };

    ghost faults = { λ s. s };

    ghost blame = { λ _. None };

    fn fetch(&mut self, alloc: Global, name: &str, limit: u64) -> Result<Fetched, FetchFault> {
        match read_file(self.rt, alloc, name, limit) {
            Ok(fetched) => Ok(fetched),
            Err(FetchFault::NoMemory) => Err(FetchFault::NoMemory),
            Err(FetchFault::Failed) => {
                self.faults = self.faults.saturating_add(1);
                Err(FetchFault::Failed)
            }
        }
    }
}

// What a fetch of this path answers. Which file the system opens by this name is its own affair.
fn read_file<R: Files>(
    rt: &R,
    alloc: Global,
    path: &str,
    limit: u64,
) -> Result<Fetched, FetchFault> {
    match fs::open(rt, path) {
        Ok(file) => read_up_to(alloc, file, limit),
        Err(e) => unopened(&e),
    }
}

// What a fetch answers where the file could not be opened: it is absent only where it was not found.
fn unopened(error: &io::Error) -> Result<Fetched, FetchFault>
    ensures absent { error_kind error.now ≡ ErrorKind.NotFound → result ≡ Ok Absent }
    ensures fault { error_kind error.now ≢ ErrorKind.NotFound → IsErrAnd result (IsFaultOf ErrorKind.OutOfMemory (error_kind error.now)) }
{
    if error.kind() == ErrorKind::NotFound {
        return Ok(Fetched::Absent);
    }
    Err(fault_of(error))
}

// The fault of a call of the system that failed.
fn fault_of(error: &io::Error) -> FetchFault
    ensures { IsFaultOf ErrorKind.OutOfMemory (error_kind error.now) result }
{
    if error.kind() == ErrorKind::OutOfMemory {
        return FetchFault::NoMemory;
    }
    FetchFault::Failed
}

/// The bytes of a reader to its end, if they are no more than `limit`. It reads at most one byte more than the limit. `Failed` and
/// `NoMemory` come only where a read failed.
pub fn read_up_to<R: Read + Drop>(
    alloc: Global,
    reader: R,
    limit: u64,
) -> Result<Fetched, FetchFault>
    ensures { IfSome (R.remaining reader) (λ bytes. IfOk result (Tells (Some bytes) limit)) }
{
    let mut bytes = Vec::new(alloc);
    let mut front = reader.take(limit.saturating_add(1));
    let read = front.read_to_end(&mut bytes);
    outcome(read, bytes, limit)
}

// What a fetch answers after a read that asked for one byte more than the limit: what it gave, or its fault.
fn outcome(read: io::Result<usize>, bytes: Vec<u8>, limit: u64) -> Result<Fetched, FetchFault>
    ensures ok { OnOk read (IsOkAnd result (Tells (Some bytes.items) limit)) }
    ensures fault { IfErr read (λ e. IsErrAnd result (IsFaultOf ErrorKind.OutOfMemory (error_kind e))) }
{
    if let Err(e) = &read {
        return Err(fault_of(e));
    }
    if bytes.len() as u64 > limit {
        return Ok(Fetched::Long);
    }
    Ok(Fetched::Bytes(bytes))
}

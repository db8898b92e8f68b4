// Shelves and sinks in memory.

ghost use Rattle.std.specs.Prelude.{◌≡◌, ◌≤◌, ◌⊎◌, ℕ, [], Some, None, Ok, Err, IfOk, OnOk, OnErr, IsTrue, IsFalse, IsOk, is_err, length, option_map};
ghost use Rattle.std.specs.FinMap as map;
ghost use Rattle.rm_base.specs.Text.{Text, Files};
ghost use Rattle.rm_outside.specs.Outside.{HasRisen, IsTold, Tells, blame_after, Gains, GainsPart};
ghost use Rattle.rm_outside.specs.Memory.{is_failing, with_file, next_fetch, after_fetch, refuses, after_put};
ghost use Rattle.rm_outside.specs.declared.FetchFault.TheVariants.{Failed, NoMemory};

use crate::{FetchFault, Fetched, NoMemory, PutFault, Shelf, Sink};
use std::alloc::Global;
use std::marker::Model;

// A file: its name and its bytes.
#[derive(Drop)]
struct NamedFile {
    name: String,
    bytes: Vec<u8>,
}

// Files by name. Of several files of a name the first counts.
#[derive(Drop)]
struct FileMap {
    files: Vec<NamedFile>,
}

impl Model for FileMap {
    ghost use Rattle.rm_base.specs.Text.{Files};
    ghost use Rattle.rm_outside.specs.Memory.{files_code};
    ghost use Rattle.rm_outside.specs.Kept.{files_of};

    ghost Value = { Files };

    ghost coded = { files_code };

    ghost view = { λ s. files_of s.files.items };
}

impl FileMap {
    fn new(alloc: Global) -> FileMap
        ensures { result ≡ map.empty }
    {
        FileMap {
            files: Vec::new(alloc),
        }
    }

    // Sets the bytes of a name.
    fn set(&mut self, name: &str, bytes: &[u8]) -> Result<(), NoMemory>
        ensures ok { OnOk result (self.new ≡ map.insert self.old name.now bytes.now) }
        ensures err { OnErr result (self.new ≡ self.old) }
    {
        let alloc = *self.files.allocator();
        let name = String::from_str(alloc, name)?;
        let bytes = bytes.to_vec(alloc)?;
        self.files.insert(0, NamedFile { name, bytes })?;
        Ok(())
    }

    // What a fetch of a name answers.
    fn fetch(&self, alloc: Global, name: &str, limit: u64) -> Result<Fetched, NoMemory>
        ensures { IfOk result (Tells (map.get self.now name.now) limit) }
    {
        for i in 0..self.files.len() {
            let file = &self.files[i];
            if name == file.name.as_str() {
                return copy(alloc, &file.bytes, limit);
            }
        }
        Ok(Fetched::Absent)
    }
}

// What a fetch of these bytes answers.
fn copy(alloc: Global, bytes: &[u8], limit: u64) -> Result<Fetched, NoMemory>
    ensures { IfOk result (Tells (Some bytes.now) limit) }
{
    if bytes.len() as u64 > limit {
        return Ok(Fetched::Long);
    }
    Ok(Fetched::Bytes(bytes.to_vec(alloc)?))
}

// Whether the call of this number is one of those that fail.
fn is_failing(failing: &[u32], number: u64) -> bool
    ensures { result ≡ is_failing failing.now number }
{
    failing.iter().any(|n| *n as u64 == number)
}

/// Files in memory, some of whose fetches fail.
#[derive(Drop)]
pub struct MemoryShelf {
    files: FileMap,
    failing: Vec<u32>,
    fetches: u64,
    faults: u64,
    blame: Option<String>,
}

impl Model for MemoryShelf {
    ghost use Rattle.std.specs.Prelude.{option_map, string_bytes};
    ghost use Rattle.rm_outside.specs.Memory.{ShelfData, shelf_code};

    ghost Value = { ShelfData };

    ghost coded = { shelf_code };

    ghost view = { λ s. record {
      files = s.files;
      failing = s.failing.items;
      fetches = s.fetches;
      faults = s.faults;
      blame = option_map string_bytes s.blame;
    } };
}

impl MemoryShelf {
    /// A shelf without files, faults and blame. The fetches whose numbers, counted from 1, are in `failing` will fail.
    pub fn new(failing: Vec<u32>) -> MemoryShelf
        ensures { result ≡ record { files = map.empty; failing = failing.items; fetches = 0; faults = 0; blame = None } }
    {
        MemoryShelf {
            files: FileMap::new(*failing.allocator()),
            failing,
            fetches: 0,
            faults: 0,
            blame: None,
        }
    }

    /// Sets the bytes of a name.
    pub fn add(&mut self, name: &str, bytes: &[u8]) -> Result<(), NoMemory>
        ensures ok { OnOk result (self.new ≡ with_file self.old name.now bytes.now) }
        ensures err { OnErr result (self.new ≡ self.old) }
    {
        self.files.set(name, bytes)
    }
}

impl Shelf for MemoryShelf {
    ghost files = { λ s. Some s.files };

    ghost faults = { λ s. s.faults };

    ghost blame = { λ s. Some s.blame };

    fn fetch(&mut self, alloc: Global, name: &str, limit: u64) -> Result<Fetched, FetchFault>
        // A fetch fails exactly by its number, or memory for the copy of its name is wanting.
        ensures failed { result ≡ Err Failed → IsTrue (is_failing self.old.failing (next_fetch self.old)) }
        ensures failing { IsTrue (is_failing self.old.failing (next_fetch self.old)) → (result ≡ Err Failed) ⊎ (result ≡ Err NoMemory) }
        ensures state { self.new ≡ after_fetch self.old name.now result }

        // As of any shelf.
        ensures files { self.new.files ≡ self.old.files }
        ensures told { IsTold (Some self.old.files) name.now limit result }
        ensures later { self.old.faults ≤ self.new.faults }
        ensures cause { result ≡ Err Failed → HasRisen self.old.faults self.new.faults }
        ensures blame { self.new.blame ≡ blame_after name.now result self.old.blame }
    {
        self.fetches = self.fetches.saturating_add(1);
        if is_failing(&self.failing, self.fetches) {
            let Ok(copy) = String::from_str(alloc, name) else {
                return Err(FetchFault::NoMemory);
            };
            self.blame = Some(copy);
            self.faults = self.faults.saturating_add(1);
            return Err(FetchFault::Failed);
        }
        match self.files.fetch(alloc, name, limit) {
            Ok(fetched) => Ok(fetched),
            Err(_) => Err(FetchFault::NoMemory),
        }
    }
}

/// Files in memory, of which no fetch fails.
#[derive(Drop)]
pub struct SteadyShelf {
    files: FileMap,
}

impl Model for SteadyShelf {
    ghost use Rattle.rm_base.specs.Text.{Files};
    ghost use Rattle.rm_outside.specs.Memory.{files_code};

    ghost Value = { Files };

    ghost coded = { files_code };

    ghost view = { λ s. s.files };
}

impl SteadyShelf {
    /// A shelf without files.
    pub fn new(alloc: Global) -> SteadyShelf
        ensures { result ≡ map.empty }
    {
        SteadyShelf {
            files: FileMap::new(alloc),
        }
    }

    /// Sets the bytes of a name.
    pub fn add(&mut self, name: &str, bytes: &[u8]) -> Result<(), NoMemory>
        ensures ok { OnOk result (self.new ≡ map.insert self.old name.now bytes.now) }
        ensures err { OnErr result (self.new ≡ self.old) }
    {
        self.files.set(name, bytes)
    }
}

impl Shelf for SteadyShelf {
    ghost files = { λ s. Some s };

    ghost faults = { λ _. 0 };

    ghost blame = { λ _. Some None };

    fn fetch(&mut self, alloc: Global, name: &str, limit: u64) -> Result<Fetched, FetchFault> {
        match self.files.fetch(alloc, name, limit) {
            Ok(fetched) => Ok(fetched),
            Err(_) => Err(FetchFault::NoMemory),
        }
    }
}

/// A sink in memory with so much room, some of whose puts fail.
#[derive(Drop)]
pub struct MemorySink {
    bytes: Vec<u8>,
    room: usize,
    failing: Vec<u32>,
    puts: u64,
    faults: u64,
}

impl Model for MemorySink {
    ghost use Rattle.std.specs.Prelude.{◌+◌, ◌≤◌, vec_len, vec_capacity};
    ghost use Rattle.rm_outside.specs.Memory.{SinkData};

    ghost Value = { SinkData };

    ghost view = { λ s. record { bytes = s.bytes.items; room = s.room; failing = s.failing.items; puts = s.puts; faults = s.faults } };

    ghost invariant = { λ s. vec_len s.bytes + s.room ≤ vec_capacity s.bytes };
}

impl MemorySink {
    /// An empty sink with so much room. The puts whose numbers, counted from 1, are in `failing` will fail. It takes the memory of all puts.
    pub fn new(alloc: Global, room: usize, failing: Vec<u32>) -> Result<MemorySink, NoMemory>
        ensures { IfOk result (λ sink. sink ≡ record { bytes = []; room = room; failing = failing.items; puts = 0; faults = 0 }) }
    {
        let bytes = Vec::with_capacity(alloc, room)?;
        Ok(MemorySink {
            bytes,
            room,
            failing,
            puts: 0,
            faults: 0,
        })
    }

    /// What was written.
    pub fn bytes(&self) -> &[u8]
        ensures { result.now ≡ self.now.bytes }
    {
        &self.bytes
    }
}

impl Sink for MemorySink {
    ghost written = { λ s. Some s.bytes };

    ghost faults = { λ s. s.faults };

    fn put(&mut self, piece: &[u8]) -> Result<(), PutFault>
        // A put fails exactly by its number, or for want of room, and then nothing of the piece is written.
        ensures failed { is_err result ≡ refuses self.old piece.now }
        ensures state { self.new ≡ after_put self.old piece.now result }

        // As of any sink.
        ensures ok { OnOk result (Gains (Some self.old.bytes) (Some self.new.bytes) piece.now) }
        ensures later { self.old.faults ≤ self.new.faults }
        ensures cause { OnErr result (HasRisen self.old.faults self.new.faults) }
        ensures part { OnErr result (GainsPart (Some self.old.bytes) (Some self.new.bytes) piece.now) }
    {
        self.puts = self.puts.saturating_add(1);
        if is_failing(&self.failing, self.puts) || piece.len() > self.room {
            self.faults = self.faults.saturating_add(1);
            return Err(PutFault::Failed);
        }
        if self.bytes.extend_from_slice(piece).is_err() {
            unreachable!();
        }
        self.room -= piece.len();
        Ok(())
    }
}

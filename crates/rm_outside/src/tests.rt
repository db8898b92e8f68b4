// Shelves and sinks, each call once, and what fails.

use super::*;
use crate::folder::{FolderShelf, read_up_to};
use crate::memory::{MemoryShelf, MemorySink, SteadyShelf};
use crate::stream::StreamSink;
use crate::torn::TornSink;
use std::io;
use std::io::{ErrorKind, Read, Write};
use std::test::Fail;

// Whether a fetch answered these bytes.
fn has_bytes(answer: &Result<Fetched, FetchFault>, wanted: &[u8]) -> bool {
    match answer {
        Ok(Fetched::Bytes(bytes)) => bytes.as_slice() == wanted,
        _ => false,
    }
}

#[test]
fn memory_shelf_fetches(rt: HostRuntime) -> Result<(), Fail> {
    let alloc = rt.alloc();
    let mut shelf = MemoryShelf::new(vec![in alloc; 2]?);
    shelf.add("F/a", b"old")?;
    shelf.add("F/b", b"four")?;
    shelf.add("F/a", b"new")?;
    let first = shelf.fetch(alloc, "F/a", 3);
    assert!(rt; has_bytes(&first, b"new"));
    let second = shelf.fetch(alloc, "F/a", 3);
    assert!(rt; matches!(&second, Err(FetchFault::Failed)));
    let third = shelf.fetch(alloc, "F/b", 3);
    assert!(rt; matches!(&third, Ok(Fetched::Long)));
    let fourth = shelf.fetch(alloc, "F/c", 3);
    assert!(rt; matches!(&fourth, Ok(Fetched::Absent)));
    Ok(())
}

#[test]
fn steady_shelf_fetches(rt: HostRuntime) -> Result<(), Fail> {
    let alloc = rt.alloc();
    let mut shelf = SteadyShelf::new(alloc);
    shelf.add("a", b"")?;
    let there = shelf.fetch(alloc, "a", 0);
    assert!(rt; has_bytes(&there, b""));
    Ok(())
}

#[test]
fn memory_sink_takes_what_fits(rt: HostRuntime) -> Result<(), Fail> {
    let alloc = rt.alloc();
    let mut sink = MemorySink::new(alloc, 5, vec![in alloc; 2]?)?;
    let first = sink.put(b"abc");
    let second = sink.put(b"d");
    let third = sink.put(b"def");
    let fourth = sink.put(b"de");
    assert!(rt; first.is_ok() && second.is_err() && third.is_err() && fourth.is_ok());
    assert!(rt; sink.bytes() == b"abcde".as_slice());
    Ok(())
}

#[test]
fn torn_sink_takes_what_there_is_room_for(rt: HostRuntime) -> Result<(), Fail> {
    let mut sink = TornSink::new(rt.alloc(), 5)?;
    let first = sink.put(b"abc");
    let torn = sink.put(b"def");
    let nothing = sink.put(b"");
    let late = sink.put(b"g");
    assert!(rt; first.is_ok() && torn.is_err() && nothing.is_ok() && late.is_err());
    assert!(rt; sink.bytes() == b"abcde".as_slice());
    Ok(())
}

// A writer whose first call is interrupted. It takes two bytes at a time, and where it is full no more; then it can't be flushed.
#[derive(Drop)]
struct NarrowWriter {
    bytes: Vec<u8>,
    room: usize,
    is_awake: bool,
}

impl Write for NarrowWriter {
    ghost use Rattle.std.specs.Prelude.{Some};

    ghost contents = { λ w. Some w.bytes.items };

    fn write(&mut self, buf: &[u8]) -> io::Result<usize> {
        if !self.is_awake {
            self.is_awake = true;
            return Err(io::Error::from(ErrorKind::Interrupted));
        }
        let n = buf.len().min(2).min(self.room);
        self.bytes.extend_from_slice(&buf[..n])?;
        self.room -= n;
        Ok(n)
    }

    fn flush(&mut self) -> io::Result<()> {
        if self.room == 0 {
            return Err(io::Error::from(ErrorKind::StorageFull));
        }
        Ok(())
    }
}

#[test]
fn stream_sink_writes_whole_pieces(rt: HostRuntime) -> Result<(), Fail> {
    let mut writer = NarrowWriter {
        bytes: Vec::new(rt.alloc()),
        room: 5,
        is_awake: false,
    };
    let mut sink = StreamSink::new(&mut writer);
    let first = sink.put(b"abc");
    let second = sink.put(b"");
    let unflushed = sink.put(b"de");
    let unwritten = sink.put(b"f");
    assert!(rt; first.is_ok() && second.is_ok() && unflushed.is_err() && unwritten.is_err());
    assert!(rt; writer.bytes.as_slice() == b"abcde".as_slice());
    Ok(())
}

#[test]
fn null_sink_takes_pieces(rt: HostRuntime) {
    let null = NullSink.put(b"ab");
    assert!(rt; null.is_ok());
}

// A reader that gives one byte, and then fails.
#[derive(Drop)]
struct BrokenReader {
    kind: ErrorKind,
    is_broken: bool,
}

impl Read for BrokenReader {
    fn read(&mut self, buf: &mut [u8]) -> io::Result<usize> {
        if self.is_broken || buf.is_empty() {
            return Err(io::Error::from(self.kind));
        }
        self.is_broken = true;
        buf[0] = b'a';
        Ok(1)
    }
}

// What is read, up to two bytes, of a reader that fails after one byte.
fn read_broken(alloc: Global, kind: ErrorKind) -> Result<Fetched, FetchFault> {
    let reader = BrokenReader {
        kind,
        is_broken: false,
    };
    read_up_to(alloc, reader, 2)
}

#[test]
fn readers_are_read_to_their_end(rt: HostRuntime) -> Result<(), Fail> {
    let alloc = rt.alloc();
    let whole = read_up_to(alloc, b"abc".as_slice(), 3);
    assert!(rt; has_bytes(&whole, b"abc"));
    let long = read_up_to(alloc, b"abc".as_slice(), 2);
    assert!(rt; matches!(&long, Ok(Fetched::Long)));
    let denied = read_broken(alloc, ErrorKind::PermissionDenied);
    assert!(rt; matches!(&denied, Err(FetchFault::Failed)));
    let starved = read_broken(alloc, ErrorKind::OutOfMemory);
    assert!(rt; matches!(&starved, Err(FetchFault::NoMemory)));
    Ok(())
}

#[test]
fn folder_shelf_tells_missing_from_failed(rt: HostRuntime) -> Result<(), Fail> {
    let alloc = rt.alloc();
    let mut shelf = FolderShelf::new(&rt);
    let missing = shelf.fetch(alloc, "/no such folder/file", 10);
    assert!(rt; matches!(&missing, Ok(Fetched::Absent)));
    let folder = shelf.fetch(alloc, "/", 10);
    assert!(rt; matches!(&folder, Err(FetchFault::Failed)));
    let within_a_file = shelf.fetch(alloc, "/dev/null/file", 10);
    assert!(rt; matches!(&within_a_file, Err(FetchFault::Failed)));
    let empty = shelf.fetch(alloc, "/dev/null", 0);
    assert!(rt; has_bytes(&empty, b""));
    let endless = shelf.fetch(alloc, "/dev/zero", 100_000);
    assert!(rt; matches!(&endless, Ok(Fetched::Long)));
    Ok(())
}

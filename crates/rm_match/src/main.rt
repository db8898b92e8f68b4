// Places a nation's doctors in hospitals: the words of the command line, the files of the system, standard output and standard error.
#![tactic(auto)]

ghost use Rattle.std.specs.Prelude.{◌≡◌, ℕ, List, map, string_bytes};
ghost use Rattle.std.specs.Process.{exit_status};
ghost use Rattle.rm_top.specs.Answers.{IsWritten, WroteText, IsObjectedWhere, IsErrorText, Reports};
ghost use Rattle.rm_top.specs.Command.{command_of};

use rm_outside::folder::FolderShelf;
use rm_outside::stream::StreamSink;
use rm_outside::{Shelf, Sink};
use rm_top::run;
use std::alloc::Global;
use std::process::ExitCode;
use std::{env, io};

// The words after the program's name.
fn words(rt: &HostRuntime) -> io::Result<Vec<String>> {
    let mut words = Vec::new(rt.alloc());
    for word in env::args(rt)?.skip(1) {
        words.push(word)?;
    }
    Ok(words)
}

// Does what the words say, and ends with the status of that: with 0 and 1 `out` gained the text, 1 says that the text objects to something, and what
// `err` gained says which other status it is.
fn perform<S: Shelf, O: Sink, E: Sink>(
    alloc: Global,
    words: &[String],
    shelf: &mut S,
    out: &mut O,
    err: &mut E,
) -> ExitCode
    ensures objected { IsObjectedWhere (S.files shelf.old) (command_of (map string_bytes words.now)) (exit_status result) }
    ensures text { IsWritten (exit_status result)
        → WroteText (S.files shelf.old) (command_of (map string_bytes words.now)) (O.written out.old) (O.written out.new) }
    ensures told { (text : List ℕ) × IsErrorText (S.files shelf.old) (S.blame shelf.new) (command_of (map string_bytes words.now)) (exit_status result) text
        × Reports (E.faults err.old) (E.faults err.new) (E.written err.old) (E.written err.new) text }
{
    ExitCode::from(run(alloc, words, shelf, out, err))
}

fn main(rt: HostRuntime) -> ExitCode {
    let words = match words(&rt) {
        Ok(words) => words,
        Err(e) => {
            return if e.kind() == io::ErrorKind::OutOfMemory {
                ExitCode::from(6)
            } else {
                ExitCode::from(7)
            };
        }
    };
    let mut shelf = FolderShelf::new(&rt);
    let mut out = StreamSink::new(rt.stdout());
    let mut err = StreamSink::new(rt.stderr());
    perform(rt.alloc(), &words, &mut shelf, &mut out, &mut err)
}

// How a call ends.

ghost use Rattle.std.specs.Prelude.{◌≡◌};
ghost use Rattle.rm_top.specs.Answers.{Reports};
ghost use Rattle.rm_top.specs.Ending.{status_of, text_of, written_with};
ghost use Rattle.rm_top.specs.Telling.{SaysWhy};

use crate::command::USAGE;
use crate::texts::{read_fault_text, refusal_text};
use rm_case::LoadFault;
use rm_outside::Sink;
use std::alloc::Global;

/// How a call ends, with the text that names a refusal or a file on which a read failed.
#[derive(Debug, Drop)]
pub enum Ending {
    Written,
    Objected,
    BadWords,
    Refused(String),
    ReadFailed(String),
    WriteFailed,
    NoMemory,
}

impl Ending {
    /// The ending of a command that has no text: it names why, or memory is wanting for the name.
    pub fn without_text(alloc: Global, fault: LoadFault) -> Ending
        ensures { SaysWhy fault result }
    {
        match fault {
            LoadFault::Refused(refusal) => match refusal_text(alloc, &refusal) {
                Ok(text) => Ending::Refused(text),
                Err(_) => Ending::NoMemory,
            },
            LoadFault::Read(file) => match read_fault_text(alloc, file) {
                Ok(text) => Ending::ReadFailed(text),
                Err(_) => Ending::NoMemory,
            },
            LoadFault::NoMemory => Ending::NoMemory,
        }
    }

    /// The ending of a command whose text was written, by whether it objects to something.
    pub fn of_written(objects: bool) -> Ending
        ensures { result ≡ written_with objects }
    {
        if objects {
            Ending::Objected
        } else {
            Ending::Written
        }
    }

    /// The status.
    pub fn status(&self) -> u8
        ensures { result ≡ status_of self.now }
    {
        match self {
            Ending::Written => 0,
            Ending::Objected => 1,
            Ending::BadWords => 2,
            Ending::Refused(_) => 3,
            Ending::ReadFailed(_) => 4,
            Ending::WriteFailed => 5,
            Ending::NoMemory => 6,
        }
    }

    /// The text on `err`, empty where the text of the command was written.
    pub fn text(&self) -> &str
        ensures { result.now ≡ text_of self.entry.now }
    {
        match self {
            Ending::Written => "",
            Ending::Objected => "",
            Ending::BadWords => USAGE,
            Ending::Refused(text) => text.as_str(),
            Ending::ReadFailed(text) => text.as_str(),
            Ending::WriteFailed => "write fault\n",
            Ending::NoMemory => "no memory\n",
        }
    }
}

/// Puts a text to `err`, in one put, unless it is empty. A fault changes nothing else.
#[tactic(auto, using(crate::proofs::Reporting::reports_nothing))]
pub fn report<E: Sink>(text: &str, err: &mut E)
    ensures { Reports (E.faults err.old) (E.faults err.new) (E.written err.old) (E.written err.new) text.now }
{
    if text.is_empty() {
        return;
    }
    match err.put(text.as_bytes()) {
        Ok(()) => {}
        Err(_) => {}
    }
}

//! The top call, which does all that the program does.
#![tactic(auto)]

ghost use Rattle.std.specs.Prelude.{◌≡◌, ◌≢◌, ◌≤◌, ◌↔◌, map, Some, None, string_bytes};
ghost use Rattle.rm_base.specs.Text.{Text};
ghost use Rattle.rm_outside.specs.Outside.{HasRisen};
ghost use Rattle.rm_top.specs.Answers.{written, objected, bad_words, read_failed, write_failed, no_memory, IsWritten, WroteText, WrotePart, IsObjectedWhere, IsRefusedWhere, Reports, IsErrorText, IsComplete};
ghost use Rattle.rm_top.specs.Command.{command_of};
ghost use Rattle.rm_top.specs.Ending.{Ends, EndsCommand};

mod auditing;
mod choosing;
mod command;
mod ending;
mod journals;
mod output;
mod prefectures;
mod replacing;
mod telling;
mod texts;
mod travelling;
mod without_policy;

use command::Command;
use ending::{Ending, report};
use output::put_text;
use rm_outside::{Shelf, Sink};
use std::alloc::{AllocError, Global};
use telling::text_of;
pub use without_policy::stable_without_policy;

/// Want of memory, where it is the only refusal.
pub type NoMemory = AllocError;

// Does what a command says.
fn answer<S: Shelf, O: Sink>(
    alloc: Global,
    command: &Command<'_>,
    shelf: &mut S,
    out: &mut O,
) -> Ending
    ensures ends { EndsCommand (record {
      files = S.files shelf.old;
      blame = S.blame shelf.new;
      shelf_before = S.faults shelf.old;
      shelf_after = S.faults shelf.new;
      out_before = O.faults out.old;
      out_after = O.faults out.new;
      before = O.written out.old;
      after = O.written out.new;
    }) command.now result }
    ensures files { S.files shelf.new ≡ S.files shelf.old }
{
    match text_of(alloc, command, shelf) {
        Ok(told) => match put_text(out, &told.text) {
            Ok(()) => Ending::of_written(told.objects),
            Err(_) => Ending::WriteFailed,
        },
        Err(fault) => Ending::without_text(alloc, fault),
    }
}

// Does what the words say.
fn perform<S: Shelf, O: Sink>(alloc: Global, words: &[String], shelf: &mut S, out: &mut O) -> Ending
    ensures ends { Ends (record {
      files = S.files shelf.old;
      blame = S.blame shelf.new;
      shelf_before = S.faults shelf.old;
      shelf_after = S.faults shelf.new;
      out_before = O.faults out.old;
      out_after = O.faults out.new;
      before = O.written out.old;
      after = O.written out.new;
    }) (command_of (map string_bytes words.now)) result }
    ensures files { S.files shelf.new ≡ S.files shelf.old }
{
    match Command::new(words) {
        Some(command) => answer(alloc, &command, shelf, out),
        None => Ending::BadWords,
    }
}

/// Does all that the program does with these words, which stand after its name, and answers its status: 0 where the text was
/// written, 1 where it was written and objects to something, as the finding of `audit` does on a placement that isn't stable and the
/// verdict of `verify` on a journal that isn't accepted, 2 where the words spell no command, 3 where the folder, a word or the
/// command's own file is refused, 4 where the shelf failed, 5 where `out` failed, and 6 for want of memory. What `err` gains says
/// which, and nothing with 0 and 1.
pub fn run<S: Shelf, O: Sink, E: Sink>(
    alloc: Global,
    words: &[String],
    shelf: &mut S,
    out: &mut O,
    err: &mut E,
) -> u8
    ensures status { result ≤ no_memory }

    // Each status has its cause.
    ensures words { (result ≡ bad_words) ↔ (command_of (map string_bytes words.now) ≡ None) }
    ensures objected { IsObjectedWhere (S.files shelf.old) (command_of (map string_bytes words.now)) result }
    ensures refused { IsRefusedWhere (S.files shelf.old) (command_of (map string_bytes words.now)) result }
    ensures read { result ≡ read_failed → HasRisen (S.faults shelf.old) (S.faults shelf.new) }
    ensures write { result ≡ write_failed → HasRisen (O.faults out.old) (O.faults out.new) }
    ensures complete { IsComplete (S.files shelf.old) (command_of (map string_bytes words.now)) result
        (HasRisen (S.faults shelf.old) (S.faults shelf.new)) (HasRisen (O.faults out.old) (O.faults out.new)) }

    // What is written.
    ensures text { IsWritten result → WroteText (S.files shelf.old) (command_of (map string_bytes words.now)) (O.written out.old) (O.written out.new) }
    ensures part { result ≡ write_failed → WrotePart (S.files shelf.old) (command_of (map string_bytes words.now)) (O.written out.old) (O.written out.new) }
    ensures unchanged { ¬ IsWritten result → result ≢ write_failed → O.written out.new ≡ O.written out.old }
    ensures told { (text : Text) × IsErrorText (S.files shelf.old) (S.blame shelf.new) (command_of (map string_bytes words.now)) result text
        × Reports (E.faults err.old) (E.faults err.new) (E.written err.old) (E.written err.new) text }
    ensures files { S.files shelf.new ≡ S.files shelf.old }
{
    let ending = perform(alloc, words, shelf, out);
    report(ending.text(), err);
    ending.status()
}

#[cfg(test)]
mod tests;

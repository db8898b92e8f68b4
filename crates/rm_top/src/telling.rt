// The text of a command.

ghost use Rattle.std.specs.Prelude.{◌≡◌, ◌≤◌, IfErr, IfOk};
ghost use Rattle.rm_base.specs.Checks.{first_of};
ghost use Rattle.rm_base.specs.Reading.{Stops};
ghost use Rattle.rm_top.specs.Answers.{IsPlacementText};
ghost use Rattle.rm_top.specs.Command.{rows_checks, word_checks};
ghost use Rattle.rm_top.specs.Telling.{AreWordsKnown, HasCaseText, HasFailedOwn, HasText, HasTextOn, LoadsRows, StopsOnCase, StopsWith};

use crate::NoMemory;
use crate::auditing::audit_told;
use crate::choosing::choose_text;
use crate::command::{Command, DOCTOR_WORD, Kind, WORDS};
use crate::journals::{own_journal_text, verify_told};
use crate::prefectures::report_text;
use crate::replacing::whatif_text;
use crate::travelling::travel_text;
use rm_base::Refusal;
use rm_base::codes::UNKNOWN_DOCTOR;
use rm_case::{Case, LoadFault, OwnFault, fetch_own};
use rm_outside::Shelf;
use rm_report::{check_text, placement_text};
use rm_table::Table;
use std::alloc::Global;

/// What a command tells: its text, and whether the text objects to something that the command was given.
#[derive(Drop)]
pub struct Told {
    pub text: Vec<u8>,
    pub objects: bool,
}

// The text of the placement of a case.
fn place_text(alloc: Global, case: &Case) -> Result<Vec<u8>, NoMemory>
    ensures { IfOk result (λ text. IsPlacementText case.now text.items) }
{
    let places = case.solve(alloc)?;
    placement_text(alloc, case, &places)
}

// The first refusal of a command's words, on the case of its folder.
fn refused_word(command: &Command<'_>, case: &Case) -> Option<Refusal>
    ensures { result ≡ first_of (word_checks command.now.kind case.now command.now.words) }
{
    match command.kind() {
        Kind::WhatIf => match case.roster().doctors().find(command.doctor()) {
            Some(_) => None,
            None => Some(Refusal::new(UNKNOWN_DOCTOR, WORDS, DOCTOR_WORD, 0)),
        },
        _ => None,
    }
}

// What a command tells on the case of its folder and the table of its own file.
fn text_on(alloc: Global, command: &Command<'_>, case: &Case, own: &Table) -> Result<Told, OwnFault>
    requires { AreWordsKnown command.now case.now }
    ensures told { IfOk result (λ told. HasCaseText command.now case.now own.now told) }
    ensures stops { IfErr result (Stops (first_of (rows_checks command.now.kind case.now own.now))) }
{
    let made = match command.kind() {
        Kind::Place => place_text(alloc, case),
        Kind::Check => check_text(alloc, case),
        Kind::Report => report_text(alloc, case),
        Kind::Choose => Ok(choose_text(alloc, case, own)?),
        Kind::Audit => return audit_told(alloc, case, own),
        Kind::WhatIf => Ok(whatif_text(alloc, case, command.doctor(), own)?),
        Kind::Journal => own_journal_text(alloc, case),
        Kind::Verify => return verify_told(alloc, case, own),
        Kind::Transit => Ok(travel_text(alloc, case, own)?),
    };
    match made {
        Ok(text) => Ok(Told {
            text,
            objects: false,
        }),
        Err(_) => Err(OwnFault::NoMemory),
    }
}

// The table of a command's own file, which has no rows where it has no such file.
fn own_table<S: Shelf>(
    alloc: Global,
    command: &Command<'_>,
    shelf: &mut S,
) -> Result<Table, LoadFault>
    ensures loads { LoadsRows (S.files shelf.old) command.now result }
    ensures fails { IfErr result (HasFailedOwn (S.faults shelf.old) (S.faults shelf.new) (S.blame shelf.new) command.now) }
    ensures files { S.files shelf.new ≡ S.files shelf.old }
    ensures later { S.faults shelf.old ≤ S.faults shelf.new }
{
    match command.own_file() {
        Some(name) => fetch_own(alloc, shelf, name),
        None => match Table::read(alloc, b"") {
            Ok(table) => Ok(table),
            Err(_) => Err(LoadFault::NoMemory),
        },
    }
}

// What a command tells on the case of its folder, or why it tells nothing.
fn text_after<S: Shelf>(
    alloc: Global,
    command: &Command<'_>,
    case: &Case,
    shelf: &mut S,
) -> Result<Told, LoadFault>
    ensures told { IfOk result (λ told. HasTextOn (S.files shelf.old) command.now case.now told) }
    ensures stops { IfErr result (StopsOnCase (S.files shelf.old) (S.faults shelf.old) (S.faults shelf.new) (S.blame shelf.new) command.now case.now) }
    ensures files { S.files shelf.new ≡ S.files shelf.old }
    ensures later { S.faults shelf.old ≤ S.faults shelf.new }
{
    if let Some(refusal) = refused_word(command, case) {
        return Err(LoadFault::Refused(refusal));
    }
    let own = match own_table(alloc, command, shelf) {
        Ok(own) => own,
        Err(fault) => return Err(fault),
    };
    match text_on(alloc, command, case, &own) {
        Ok(told) => Ok(told),
        Err(OwnFault::Refused(refusal)) => Err(LoadFault::Refused(refusal)),
        Err(OwnFault::NoMemory) => Err(LoadFault::NoMemory),
    }
}

/// What a command tells, or why it tells nothing: the first refusal of its folder, then of its words and of its own file, a file that
/// the shelf failed at, or want of memory.
pub fn text_of<S: Shelf>(
    alloc: Global,
    command: &Command<'_>,
    shelf: &mut S,
) -> Result<Told, LoadFault>
    ensures told { IfOk result (λ told. HasText (S.files shelf.old) command.now told) }
    ensures stops { IfErr result (StopsWith (S.files shelf.old) (S.faults shelf.old) (S.faults shelf.new) (S.blame shelf.new) command.now) }
    ensures files { S.files shelf.new ≡ S.files shelf.old }
{
    let case = match Case::load(alloc, shelf, command.folder()) {
        Ok(case) => case,
        Err(fault) => return Err(fault),
    };
    text_after(alloc, command, &case, shelf)
}

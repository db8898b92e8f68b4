// Events of a command's own file.

ghost use Rattle.std.specs.Prelude.{◌≡◌, ◌<◌, None, Some, All, IfOk, IfErr, OnOk};
ghost use Rattle.rm_base.specs.Checks.{checks_of, first_of};
ghost use Rattle.rm_base.specs.Reading.{Stops};
ghost use Rattle.rm_market.specs.Board.{contract_count};
ghost use Rattle.rm_market.specs.Market.{wishes_of};
ghost use Rattle.rm_roster.specs.Cells.{data_rows};
ghost use Rattle.rm_case.specs.Case.{market};
ghost use Rattle.rm_transit.specs.Events.{contract_checks, event_checks, event_table_checks, events_in, events_told, row_checks, row_contract, row_doctor, row_event, word_named};
ghost use Rattle.rm_transit.specs.Travel.{IsEventOf};

use rm_base::ReadFault;
use rm_base::codes::{
    BAD_EVENT, NOT_CONTRACT, OWN_FILE, UNKNOWN_DOCTOR, UNKNOWN_HOSPITAL, WRONG_HEADER,
};
use rm_case::{Case, OwnFault};
use rm_roster::wrong_cell;
use rm_table::{Row, Table};
use rm_transit_laws::Event;
use std::alloc::Global;

// What happens: a doctor sends his next offer, an offer arrives, or a refusal arrives.
#[derive(Clone, Copy)]
pub(crate) enum Word {
    Send,
    Offer,
    Refusal,
}

/// The events that a table tells, in its order: a row has the word `send` and a doctor, or `offer` or `refusal`, a doctor and a
/// hospital that ranks him. An event's doctor is his row of `doctors.csv`, and its contract its number on the case's board, both
/// counted from 0. `Refused` is the first refusal, of file 5. First comes the header: code 13, with `a` 0 and `b` its first
/// wrong field, counted from 1. Then come the rows in order, where `a` is the row, counted from 1 after the header: 68, another
/// word, with `b` 1; 60, an unknown doctor, with `b` 2; after `send` 68, a third cell that isn't empty, with `b` 3; and else 61,
/// an unknown hospital, with `b` 3, and 65, a hospital that doesn't rank the doctor, with `b` 3. `NoMemory` is want of memory.
pub fn read_events(alloc: Global, case: &Case, table: &Table) -> Result<Vec<Event>, OwnFault>
    ensures passes { OnOk result (first_of (event_table_checks case.now table.now) ≡ None) }
    ensures events { IfOk result (λ v. v.items ≡ events_told case.now table.now) }
    ensures known { IfOk result (λ v. All (IsEventOf (wishes_of (market case.now))) v.items) }
    ensures stops { IfErr result (Stops (first_of (event_table_checks case.now table.now))) }
{
    match wrong_cell(table, &["event", "doctor", "hospital"]) {
        Some(field) => Err(ReadFault::refused(WRONG_HEADER, OWN_FILE, 0, field)),
        None => read_rows(alloc, case, table),
    }
}

// The events that the rows after the header tell.
fn read_rows(alloc: Global, case: &Case, table: &Table) -> Result<Vec<Event>, OwnFault>
    ensures passes { OnOk result (first_of (checks_of (event_checks case.now) (data_rows table.now)) ≡ None) }
    ensures events { IfOk result (λ v. v.items ≡ events_in case.now (data_rows table.now)) }
    ensures known { IfOk result (λ v. All (IsEventOf (wishes_of (market case.now))) v.items) }
    ensures stops { IfErr result (Stops (first_of (checks_of (event_checks case.now) (data_rows table.now)))) }
{
    let Ok(mut events) = Vec::with_capacity(alloc, table.rows()) else {
        return Err(OwnFault::NoMemory);
    };
    for i in 1..table.rows() {
        let event = match read_event(case, &table.row(i), i as u64) {
            Ok(event) => event,
            Err(fault) => return Err(fault),
        };
        if events.push(event).is_err() {
            return Err(OwnFault::NoMemory);
        }
    }
    Ok(events)
}

// The event of row i.
fn read_event(case: &Case, row: &Row<'_>, i: u64) -> Result<Event, OwnFault>
    ensures passes { OnOk result (first_of (row_checks case.now i row.now) ≡ None) }
    ensures event { IfOk result (λ e. row_event case.now row.now ≡ Some e) }
    ensures known { IfOk result (IsEventOf (wishes_of (market case.now))) }
    ensures stops { IfErr result (Stops (first_of (row_checks case.now i row.now))) }
{
    let Some(word) = word_named(row.cell(0)) else {
        return Err(ReadFault::refused(BAD_EVENT, OWN_FILE, i, 1));
    };
    let Some(d) = case.roster().doctors().find(row.cell(1)) else {
        return Err(ReadFault::refused(UNKNOWN_DOCTOR, OWN_FILE, i, 2));
    };
    match word {
        Word::Send => {
            if !row.cell(2).is_empty() {
                return Err(ReadFault::refused(BAD_EVENT, OWN_FILE, i, 3));
            }
            Ok(Event::Send(d))
        }
        Word::Offer => match read_contract(case, row, i, d) {
            Ok(x) => Ok(Event::Offer(x)),
            Err(fault) => Err(fault),
        },
        Word::Refusal => match read_contract(case, row, i, d) {
            Ok(x) => Ok(Event::Refusal(x)),
            Err(fault) => Err(fault),
        },
    }
}

// The contract of doctor d, whom row i names, and of the hospital that it names.
fn read_contract(case: &Case, row: &Row<'_>, i: u64, d: u32) -> Result<u32, OwnFault>
    requires doctor { row_doctor case.now row.now ≡ Some d }
    ensures passes { OnOk result (first_of (contract_checks case.now i row.now) ≡ None) }
    ensures contract { IfOk result (λ x. row_contract case.now row.now ≡ Some x) }
    ensures below { IfOk result (λ x. x < contract_count (market case.now).board) }
    ensures stops { IfErr result (Stops (first_of (contract_checks case.now i row.now))) }
{
    let Some(h) = case.roster().hospitals().find(row.cell(2)) else {
        return Err(ReadFault::refused(UNKNOWN_HOSPITAL, OWN_FILE, i, 3));
    };
    match case.board().find(d, h) {
        Some(x) => Ok(x),
        None => Err(ReadFault::refused(NOT_CONTRACT, OWN_FILE, i, 3)),
    }
}

// What happens, by its word.
fn word_named(text: &str) -> Option<Word>
    ensures { result ≡ word_named text.now }
{
    if text == "send" {
        return Some(Word::Send);
    }
    if text == "offer" {
        return Some(Word::Offer);
    }
    if text == "refusal" {
        return Some(Word::Refusal);
    }
    None
}

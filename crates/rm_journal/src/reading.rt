// Journals of a command's own file.

ghost use Rattle.std.specs.Prelude.{◌≡◌, ◌<◌, ◌≤◌, ◌+◌, ℕ, [], length, All, None, Some, IfOk, IfErr, OnOk};
ghost use Rattle.rm_base.specs.Checks.{checks_of, first_of};
ghost use Rattle.rm_base.specs.Reading.{Stops};
ghost use Rattle.rm_market.specs.Board.{contract_count};
ghost use Rattle.rm_market.specs.declared.Outcome.TheVariants as out;
ghost use Rattle.rm_case.specs.Case.{market};
ghost use Rattle.rm_case.specs.Own.{contract_in};
ghost use Rattle.rm_roster.specs.Cells.{data_rows, field};
ghost use Rattle.rm_journal_laws.specs.Journal.{NamesBelow};
ghost use Rattle.rm_journal.specs.Reading.{answer_checks, contract_checks, empty_checks, entries_in, entry_checks, journal_checks, journal_in, row_checks, row_entry, row_outcome};

use rm_base::ReadFault;
use rm_base::codes::{
    BAD_ANSWER, NOT_CONTRACT, OWN_FILE, UNKNOWN_DOCTOR, UNKNOWN_HOSPITAL, WRONG_HEADER,
};
use rm_case::{Case, OwnFault};
use rm_choice::Outcome;
use rm_journal_laws::Entry;
use rm_roster::wrong_cell;
use rm_table::{Row, Table};
use std::alloc::Global;

/// The journal that a table tells, in its order: a row names a doctor and a hospital that ranks him, the answer, and the doctor and
/// the hospital of the contract that is put out, where one is. A contract is its number on the case's board, counted from 0, and by
/// `contracts` each is one of the board's. `Refused` is the first refusal, of file 5. First comes the header: code 13, with `a` 0
/// and `b` its first wrong field, counted from 1. Then come the rows in order, where `a` is the row, counted from 1 after the
/// header: 60, an unknown doctor, with `b` 1; 61, an unknown hospital, with `b` 2; 65, a hospital that doesn't rank the doctor, with
/// `b` 2; and 67, a text that is no answer, with `b` 3. Where the answer is `swapped`, the same of fields 4 and 5: 60 with `b` 4,
/// and 61 and 65 with `b` 5. Where it is `kept` or `refused`, 67 with the first of the fields 4 and 5 that isn't empty as `b`.
/// `NoMemory` is want of memory.
pub fn read_journal(alloc: Global, case: &Case, table: &Table) -> Result<Vec<Entry>, OwnFault>
    ensures reads { IfOk result (λ v. (first_of (journal_checks case.now table.now) ≡ None) × (v.items ≡ journal_in case.now table.now)) }
    ensures stops { IfErr result (Stops (first_of (journal_checks case.now table.now))) }
    ensures contracts { IfOk result (λ v. All (NamesBelow (contract_count (market case.now).board)) v.items) }
{
    let header = ["doctor", "hospital", "answer", "out_doctor", "out_hospital"];
    match wrong_cell(table, &header) {
        Some(field) => Err(ReadFault::refused(WRONG_HEADER, OWN_FILE, 0, field)),
        None => read_rows(alloc, case, table),
    }
}

// The entries that the rows after the header tell.
fn read_rows(alloc: Global, case: &Case, table: &Table) -> Result<Vec<Entry>, OwnFault>
    ensures reads { IfOk result (λ v.
        (first_of (checks_of (entry_checks case.now) (data_rows table.now)) ≡ None) × (v.items ≡ entries_in case.now (data_rows table.now))) }
    ensures stops { IfErr result (Stops (first_of (checks_of (entry_checks case.now) (data_rows table.now)))) }
    ensures contracts { IfOk result (λ v. All (NamesBelow (contract_count (market case.now).board)) v.items) }
{
    let mut entries = Vec::new(alloc);
    for i in 1..table.rows() {
        let entry = match read_entry(case, &table.row(i), i as u64) {
            Ok(entry) => entry,
            Err(fault) => return Err(fault),
        };
        if entries.push(entry).is_err() {
            return Err(OwnFault::NoMemory);
        }
    }
    Ok(entries)
}

// The entry that row i tells.
fn read_entry(case: &Case, row: &Row<'_>, i: u64) -> Result<Entry, OwnFault>
    ensures passes { OnOk result (first_of (row_checks case.now i row.now) ≡ None) }
    ensures entry { IfOk result (λ e. row_entry case.now row.now ≡ Some e) }
    ensures contracts { IfOk result (NamesBelow (contract_count (market case.now).board)) }
    ensures stops { IfErr result (λ e. Stops (first_of (row_checks case.now i row.now)) e) }
{
    let x = match read_contract(case, row.cell(0), row.cell(1), i, 1) {
        Ok(x) => x,
        Err(fault) => return Err(fault),
    };
    match read_outcome(case, row, i) {
        Ok(outcome) => Ok(Entry { x, outcome }),
        Err(fault) => Err(fault),
    }
}

// The answer that row i tells, with the contract that is put out.
fn read_outcome(case: &Case, row: &Row<'_>, i: u64) -> Result<Outcome, OwnFault>
    ensures passes { OnOk result (first_of (answer_checks case.now i row.now) ≡ None) }
    ensures outcome { IfOk result (λ o. row_outcome case.now row.now ≡ Some o) }
    ensures below { IfOk result (λ o. (z : ℕ) → o ≡ out.Swapped z → z < contract_count (market case.now).board) }
    ensures stops { IfErr result (λ e. Stops (first_of (answer_checks case.now i row.now)) e) }
{
    let answer = row.cell(2);
    if answer == "kept" {
        return nothing_out(row, i, Outcome::Kept);
    }
    if answer == "refused" {
        return nothing_out(row, i, Outcome::Refused);
    }
    if answer != "swapped" {
        return Err(ReadFault::refused(BAD_ANSWER, OWN_FILE, i, 3));
    }
    match read_contract(case, row.cell(3), row.cell(4), i, 4) {
        Ok(z) => Ok(Outcome::Swapped(z)),
        Err(fault) => Err(fault),
    }
}

// This outcome, where row i tells of nothing that is put out.
fn nothing_out(row: &Row<'_>, i: u64, outcome: Outcome) -> Result<Outcome, OwnFault>
    ensures passes { OnOk result (first_of (empty_checks i row.now) ≡ None) }
    ensures outcome { IfOk result (λ o. o ≡ outcome) }
    ensures stops { IfErr result (λ e. Stops (first_of (empty_checks i row.now)) e) }
{
    if !row.cell(3).is_empty() {
        return Err(ReadFault::refused(BAD_ANSWER, OWN_FILE, i, 4));
    }
    if !row.cell(4).is_empty() {
        return Err(ReadFault::refused(BAD_ANSWER, OWN_FILE, i, 5));
    }
    Ok(outcome)
}

// The contract that two cells of row i name, which are this field and the next.
fn read_contract(
    case: &Case,
    doctor: &str,
    hospital: &str,
    i: u64,
    field: u64,
) -> Result<u32, OwnFault>
    requires { field ≤ 4 }
    ensures passes { OnOk result (first_of (contract_checks case.now i field doctor.now hospital.now) ≡ None) }
    ensures contract { IfOk result (λ x. contract_in case.now doctor.now hospital.now ≡ Some x) }
    ensures below { IfOk result (λ x. x < contract_count (market case.now).board) }
    ensures stops { IfErr result (λ e. Stops (first_of (contract_checks case.now i field doctor.now hospital.now)) e) }
{
    let roster = case.roster();
    let Some(d) = roster.doctors().find(doctor) else {
        return Err(ReadFault::refused(UNKNOWN_DOCTOR, OWN_FILE, i, field));
    };
    let Some(h) = roster.hospitals().find(hospital) else {
        return Err(ReadFault::refused(UNKNOWN_HOSPITAL, OWN_FILE, i, field + 1));
    };
    match case.board().find(d, h) {
        Some(x) => Ok(x),
        None => Err(ReadFault::refused(NOT_CONTRACT, OWN_FILE, i, field + 1)),
    }
}

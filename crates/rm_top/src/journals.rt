// The texts of `journal` and `verify`: a journal of offers, and what is so of one that anybody wrote.

ghost use Rattle.std.specs.Prelude.{◌≡◌, All, None, IfErr, IfOk};
ghost use Rattle.rm_base.specs.Checks.{first_of};
ghost use Rattle.rm_base.specs.Reading.{Stops};
ghost use Rattle.rm_market.specs.Board.{contract_count};
ghost use Rattle.rm_case.specs.Case.{market};
ghost use Rattle.rm_journal_laws.specs.Journal.{NamesBelow};
ghost use Rattle.rm_journal.specs.Reading.{journal_checks, journal_in};
ghost use Rattle.rm_top.specs.Answers.{IsJournalText};
ghost use Rattle.rm_top.specs.Telling.{IsVerdictTold};

use crate::NoMemory;
use crate::telling::Told;
use rm_case::{Case, OwnFault};
use rm_journal::{Check, Entry, own_journal, read_journal, verify};
use rm_report::{journal_text, verdict_text};
use rm_table::Table;
use std::alloc::Global;

/// The text of the case's own journal.
pub fn own_journal_text(alloc: Global, case: &Case) -> Result<Vec<u8>, NoMemory>
    ensures { IfOk result (λ text. IsJournalText case.now text.items) }
{
    let entries = own_journal(alloc, case)?;
    journal_text(alloc, case, &entries)
}

// What is told of the verdict on a journal.
fn verdict_told(alloc: Global, case: &Case, entries: &[Entry]) -> Result<Told, NoMemory>
    requires { All (NamesBelow (contract_count (market case.now).board)) entries.now }
    ensures { IfOk result (λ told. IsVerdictTold case.now entries.now told) }
{
    let check = verify(alloc, case, entries)?;
    let text = verdict_text(alloc, case, check)?;
    let objects = match check {
        Check::Accepted => false,
        _ => true,
    };
    Ok(Told { text, objects })
}

/// What is told of the verdict on the journal that a table tells. It objects to one that isn't accepted.
pub fn verify_told(alloc: Global, case: &Case, table: &Table) -> Result<Told, OwnFault>
    ensures told { IfOk result (λ told. (first_of (journal_checks case.now table.now) ≡ None) × IsVerdictTold case.now (journal_in case.now table.now) told) }
    ensures stops { IfErr result (Stops (first_of (journal_checks case.now table.now))) }
{
    let entries = match read_journal(alloc, case, table) {
        Ok(entries) => entries,
        Err(fault) => return Err(fault),
    };
    match verdict_told(alloc, case, &entries) {
        Ok(told) => Ok(told),
        Err(_) => Err(OwnFault::NoMemory),
    }
}

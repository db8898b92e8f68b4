// The texts of a journal of offers and of the verdict on one.

ghost use Rattle.std.specs.Prelude.{◌≡◌, ◌<◌, ◌++◌, [], ◌∷◌, ℕ, List, All, codes, decimal, length, IfOk, OnOk};
ghost use Rattle.csv.specs.Writing.{default_writer, row_text};
ghost use Rattle.rm_base.specs.Text.{Text};
ghost use Rattle.rm_market.specs.Board.{contract_count};
ghost use Rattle.rm_market.specs.declared.Outcome.TheVariants as out;
ghost use Rattle.rm_case.specs.Case.{market};
ghost use Rattle.rm_journal_laws.specs.Journal.{NamesBelow};
ghost use Rattle.rm_report.specs.Journal.{IsCheckOf, entry_row, journal_header, journal_text, out_doctor, out_hospital, outcome_word, verdict_row, verdict_text};
ghost use Rattle.rm_report.specs.Open.{Holds};

use crate::certificate::{name_of_doctor, name_of_hospital};
use crate::writing::{close, open_writer, write_row};
use csv::Writer;
use rm_base::NoMemory;
use rm_case::Case;
use rm_journal_laws::{Check, Entry, Outcome};
use std::alloc::Global;

// A guess at the bytes of a row, by which the text's room is taken at once.
const ROW_BYTES: usize = 32;

// The word for an answer.
fn outcome_word<'a>(outcome: Outcome) -> &'a str
    ensures { result.now ≡ outcome_word outcome }
{
    match outcome {
        Outcome::Kept => "kept",
        Outcome::Refused => "refused",
        Outcome::Swapped(_) => "swapped",
    }
}

// The name of the doctor of the contract that is put out, or nothing.
fn out_doctor(case: &Case, outcome: Outcome) -> &str
    requires { (z : ℕ) → outcome ≡ out.Swapped z → z < contract_count (market case.now).board }
    ensures { result.now ≡ out_doctor case.entry.now outcome }
{
    match outcome {
        Outcome::Swapped(z) => name_of_doctor(case, z),
        Outcome::Kept | Outcome::Refused => "",
    }
}

// The name of the hospital of the contract that is put out, or nothing.
fn out_hospital(case: &Case, outcome: Outcome) -> &str
    requires { (z : ℕ) → outcome ≡ out.Swapped z → z < contract_count (market case.now).board }
    ensures { result.now ≡ out_hospital case.entry.now outcome }
{
    match outcome {
        Outcome::Swapped(z) => name_of_hospital(case, z),
        Outcome::Kept | Outcome::Refused => "",
    }
}

// Writes the row of an entry.
fn write_entry(writer: &mut Writer<Vec<u8>>, case: &Case, entry: Entry) -> Result<(), NoMemory>
    requires { NamesBelow (contract_count (market case.now).board) entry }
    ensures { OnOk result ((text : List ℕ) → Holds writer.old text → Holds writer.new (text ++ row_text default_writer (entry_row case.now entry))) }
{
    let doctor = name_of_doctor(case, entry.x);
    let hospital = name_of_hospital(case, entry.x);
    let answer = outcome_word(entry.outcome);
    let out_doctor = out_doctor(case, entry.outcome);
    let out_hospital = out_hospital(case, entry.outcome);
    write_row(
        writer,
        &[
            doctor.as_bytes(),
            hospital.as_bytes(),
            answer.as_bytes(),
            out_doctor.as_bytes(),
            out_hospital.as_bytes(),
        ],
    )
}

/// The text of a journal, as comma-separated cells: the header `doctor,hospital,answer,out_doctor,out_hospital`, and then a row for
/// each entry: the doctor and the hospital of its contract, `kept`, `refused` or `swapped`, and where it is `swapped` the doctor and
/// the hospital of the contract that is put out, else two empty cells. Contracts are numbers of the case's board.
pub fn journal_text(alloc: Global, case: &Case, entries: &[Entry]) -> Result<Vec<u8>, NoMemory>
    requires { All (NamesBelow (contract_count (market case.now).board)) entries.now }
    ensures { IfOk result (λ text. text.items ≡ journal_text case.now entries.now) }
{
    let rows = entries.len().saturating_add(1);
    let mut writer = open_writer(alloc, ROW_BYTES.saturating_mul(rows))?;
    write_row(
        &mut writer,
        &[
            b"doctor",
            b"hospital",
            b"answer",
            b"out_doctor",
            b"out_hospital",
        ],
    )?;
    for i in 0..entries.len() {
        write_entry(&mut writer, case, entries[i])?;
    }
    let text = close(writer)?;
    Ok(text)
}

// Writes a row of a word and a number.
fn write_number(
    alloc: Global,
    writer: &mut Writer<Vec<u8>>,
    word: &[u8],
    number: u64,
) -> Result<(), NoMemory>
    ensures { OnOk result ((text : List ℕ) → Holds writer.old text
        → Holds writer.new (text ++ row_text default_writer (word.now ∷ decimal number ∷ []))) }
{
    let cell = format!(in alloc; "{number}")?;
    write_row(writer, &[word, cell.as_bytes()])
}

// Writes the row of the verdict on a journal.
fn write_verdict(
    alloc: Global,
    writer: &mut Writer<Vec<u8>>,
    case: &Case,
    check: Check,
) -> Result<(), NoMemory>
    requires { IsCheckOf case.now check }
    ensures { OnOk result ((text : List ℕ) → Holds writer.old text → Holds writer.new (text ++ row_text default_writer (verdict_row case.now check))) }
{
    match check {
        Check::Accepted => write_row(writer, &[b"accepted"]),
        Check::NotNext(row) => write_number(alloc, writer, b"not-next", row),
        Check::WrongAnswer(row) => write_number(alloc, writer, b"wrong-answer", row),
        Check::Unclosed(d) => {
            let doctor = case.roster().doctors().name(d);
            write_row(writer, &[b"open", doctor.as_bytes()])
        }
    }
}

/// The text of the verdict on a journal, as one row of comma-separated cells: `accepted`; or `not-next` and the entry that isn't what
/// its doctor offers next; or `wrong-answer` and the entry of which what it says isn't so; or `open` and the doctor who can still
/// offer. Entries count from 1, and a doctor is his row of `doctors.csv`, counted from 0.
pub fn verdict_text(alloc: Global, case: &Case, check: Check) -> Result<Vec<u8>, NoMemory>
    requires { IsCheckOf case.now check }
    ensures { IfOk result (λ text. text.items ≡ verdict_text case.now check) }
{
    let mut writer = open_writer(alloc, 0)?;
    write_verdict(alloc, &mut writer, case, check)?;
    let text = close(writer)?;
    Ok(text)
}

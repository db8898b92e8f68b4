// The text of where the doctors stand.

ghost use Rattle.std.specs.Prelude.{◌≡◌, ◌<◌, ◌++◌, ℕ, List, length, IfOk, IfSome, OnOk};
ghost use Rattle.csv.specs.Writing.{default_writer, row_text};
ghost use Rattle.rm_market.specs.Board.{contract_count};
ghost use Rattle.rm_case.specs.Case.{market};
ghost use Rattle.rm_report.specs.Open.{Holds};
ghost use Rattle.rm_transit.specs.Running.{contract_in, AreMarksBelow};
ghost use Rattle.rm_transit.specs.Texts.{closing_row, mark_hospital, mark_word, transit_text};

use crate::NoMemory;
use csv::Writer;
use rm_case::Case;
use rm_report::{close, name_of_hospital, open_writer, write_row};
use rm_transit_laws::Mark;
use std::alloc::Global;

// A guess at the bytes of a row, by which the text's room is taken at once.
const ROW_BYTES: usize = 24;

/// The text of where the doctors of a case stand, as comma-separated cells: the header `doctor,hospital,state`; then a row for each
/// doctor in his order, with his name, the hospital of his mark or an empty cell, and `free`, `done`, `offered`, `held` or
/// `refused`; and last two empty cells and `closed`, or `open`. There is one mark per doctor, and its contract is a number on the
/// case's board, counted from 0. `NoMemory` is want of memory.
pub fn transit_text(
    alloc: Global,
    case: &Case,
    marks: &[Mark],
    closed: bool,
) -> Result<Vec<u8>, NoMemory>
    requires doctors { length marks.now ≡ length case.now.roster.doctors }
    requires contracts { AreMarksBelow (contract_count (market case.now).board) marks.now }
    ensures { IfOk result (λ text. text.items ≡ transit_text case.now marks.now closed) }
{
    let doctors = case.roster().doctors();
    let mut writer = open_writer(alloc, ROW_BYTES * (doctors.len() as usize + 2))?;
    write_row(&mut writer, &[b"doctor", b"hospital", b"state"])?;
    for d in 0..doctors.len() {
        let doctor = doctors.name(d);
        let mark = marks[d as usize];
        let hospital = mark_hospital(case, mark);
        let word = mark_word(mark);
        write_row(
            &mut writer,
            &[doctor.as_bytes(), hospital.as_bytes(), word.as_bytes()],
        )?;
    }
    write_closing(&mut writer, closed)?;
    let text = close(writer)?;
    Ok(text)
}

// The name of the hospital of a mark, or nothing.
fn mark_hospital(case: &Case, mark: Mark) -> &str
    requires { IfSome (contract_in mark) (λ x. x < contract_count (market case.now).board) }
    ensures { result.now ≡ mark_hospital case.entry.now mark }
{
    match mark {
        Mark::Free | Mark::Done => "",
        Mark::Offered(x) | Mark::Held(x) | Mark::Refused(x) => name_of_hospital(case, x),
    }
}

// The word of a mark.
fn mark_word<'a>(mark: Mark) -> &'a str
    ensures { result.now ≡ mark_word mark }
{
    match mark {
        Mark::Free => "free",
        Mark::Done => "done",
        Mark::Offered(_) => "offered",
        Mark::Held(_) => "held",
        Mark::Refused(_) => "refused",
    }
}

// Writes the last row, of whether everything rests.
fn write_closing(writer: &mut Writer<Vec<u8>>, closed: bool) -> Result<(), NoMemory>
    ensures { OnOk result ((text : List ℕ) → Holds writer.old text → Holds writer.new (text ++ row_text default_writer (closing_row closed))) }
{
    if closed {
        write_row(writer, &[b"", b"", b"closed"])
    } else {
        write_row(writer, &[b"", b"", b"open"])
    }
}

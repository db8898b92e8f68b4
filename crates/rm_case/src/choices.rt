// Choices: the hospitals of a command's own file.

ghost use Rattle.std.specs.List.{IsDistinct};
ghost use Rattle.std.specs.Prelude.{◌≡◌, ◌==◌, ◌<◌, length, get_or, is_some, None, Some, IfOk, IfErr, OnOk};
ghost use Rattle.rm_base.specs.Checks.{checks_of, first_of};
ghost use Rattle.rm_base.specs.Reading.{Reads, Stops};
ghost use Rattle.rm_market.specs.Market.{IsList};
ghost use Rattle.rm_roster.specs.Cells.{data_rows};
ghost use Rattle.rm_case.specs.Case.{market};
ghost use Rattle.rm_case.specs.Choices.{choice_checks, choice_table_checks, choices_of, hospital_checks, hospitals_in_rows, row_hospital};

use crate::case::Case;
use crate::fault::OwnFault;
use rm_base::ReadFault;
use rm_base::codes::{OWN_FILE, REPEATED_CHOICE, UNKNOWN_HOSPITAL, WRONG_HEADER};
use rm_roster::wrong_cell;
use rm_table::{Row, Table};
use std::alloc::Global;
use std::marker::Model;

/// A list of hospitals as a doctor gives it, best first, each once. A hospital is its row of `hospitals.csv`, counted from 0.
#[derive(Drop)]
pub struct Choices {
    hospitals: Vec<u32>,
}

impl Model for Choices {
    ghost use Rattle.std.specs.Prelude.{List, ℕ, ◌==◌};
    ghost use Rattle.std.specs.List.{IsDistinct};

    ghost Value = { List ℕ };

    ghost view = { λ c. c.hospitals.items };

    ghost invariant = { λ c. IsDistinct ◌==◌ c.hospitals.items };
}

impl Choices {
    /// The list that a table tells: a row names a hospital, and no two rows name the same one. There may be no row. `Refused` is
    /// the first refusal, of file 5. First comes the header: code 13, with `a` 0 and `b` its first wrong field, counted from 1.
    /// Then come the rows in order, where `a` is the row, counted from 1 after the header, and `b` is 1: 61, an unknown hospital;
    /// and 21, the hospital of a former row. `NoMemory` is want of memory.
    pub fn read(alloc: Global, case: &Case, table: &Table) -> Result<Choices, OwnFault>
        ensures reads { Reads (first_of (choice_table_checks case.now table.now)) (choices_of case.now table.now) result }
        ensures list { IfOk result (λ choices. IsList (market case.now).board choices) }
    {
        match wrong_cell(table, &["hospital"]) {
            Some(field) => Err(ReadFault::refused(WRONG_HEADER, OWN_FILE, 0, field)),
            None => Choices::read_rows(alloc, case, table),
        }
    }

    // The list that the rows after the header tell.
    fn read_rows(alloc: Global, case: &Case, table: &Table) -> Result<Choices, OwnFault>
        ensures reads { Reads (first_of (checks_of (choice_checks case.now) (data_rows table.now))) (hospitals_in_rows case.now (data_rows table.now)) result }
        ensures list { IfOk result (λ choices. IsList (market case.now).board choices) }
    {
        let count = case.roster().hospitals().len() as usize;
        let Ok(mut rows) = vec![in alloc; None; count] else {
            return Err(OwnFault::NoMemory);
        };
        let mut hospitals = Vec::new(alloc);
        for i in 1..table.rows() {
            let h = match read_choice(case, &table.row(i), i as u64, &rows) {
                Ok(h) => h,
                Err(fault) => return Err(fault),
            };
            rows[h as usize] = Some(i as u64);
            if hospitals.push(h).is_err() {
                return Err(OwnFault::NoMemory);
            }
        }
        Ok(Choices { hospitals })
    }

    /// The hospitals, best first.
    pub fn hospitals(&self) -> &[u32]
        ensures hospitals { result.now ≡ self.entry.now }
        ensures once { IsDistinct ◌==◌ self.entry.now }
    {
        &self.hospitals
    }
}

// The hospital that row i names, which no former row does. Each hospital has its former row, if there is one.
fn read_choice(case: &Case, row: &Row<'_>, i: u64, former: &[Option<u64>]) -> Result<u32, OwnFault>
    requires { length former.now ≡ length (market case.now).board.ranks }
    ensures passes { OnOk result (first_of (hospital_checks i (λ h. is_some (get_or former.now h None)) (row_hospital case.now row.now)) ≡ None) }
    ensures hospital { IfOk result (λ h. (row_hospital case.now row.now ≡ Some h) × (h < length former.now) × (get_or former.now h None ≡ None)) }
    ensures stops { IfErr result (λ e. Stops (first_of (hospital_checks i (λ h. is_some (get_or former.now h None)) (row_hospital case.now row.now))) e) }
{
    let Some(h) = case.roster().hospitals().find(row.cell(0)) else {
        return Err(ReadFault::refused(UNKNOWN_HOSPITAL, OWN_FILE, i, 1));
    };
    match former[h as usize] {
        Some(_) => Err(ReadFault::refused(REPEATED_CHOICE, OWN_FILE, i, 1)),
        None => Ok(h),
    }
}

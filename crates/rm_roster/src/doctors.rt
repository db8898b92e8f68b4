// The doctors, as their file tells them.

ghost use Rattle.std.specs.Prelude.{◌≡◌, ◌+◌, ◌<◌, ◌≤◌, ◌≢◌, ℕ, List, [], ◌∷◌, ◌++◌, get_or, length, Some, None, IfOk, IfErr, OnOk};
ghost use Rattle.rm_base.specs.Checks.{checks_of, first_of};
ghost use Rattle.rm_base.specs.Reading.{Stops, Reads};
ghost use Rattle.rm_ranks.specs.Built.{ListsTold, begun, with_items};
ghost use Rattle.rm_roster.specs.Cells.{data_rows, name_in};
ghost use Rattle.rm_roster.specs.Items.{list_in};
ghost use Rattle.rm_roster.specs.Doctors.{doctor_checks, doctor_checks_after, doctor_table_checks, DoctorsData, doctors_of};

use crate::RosterFault;
use crate::cells::{refused, wrong_cell};
use crate::items::read_items;
use rm_base::codes::{
    BAD_NAME, CHOICES_LIMIT, DOCTORS_FILE, DOCTORS_LIMIT, MOST_CHOICES, MOST_DOCTORS,
    REPEATED_NAME, TOO_MANY, WRONG_HEADER,
};
use rm_base::text::is_name;
use rm_names::{Added, Names};
use rm_ranks::{Lists, ListsBuilder};
use rm_table::{Row, Table};
use std::alloc::Global;
use std::marker::Model;

// Reads a row, after the names and the lists of the rows before it.
fn read_doctor(
    row: &Row<'_>,
    hospitals: &Names,
    names: &mut Names,
    lists: &mut ListsBuilder,
) -> Result<(), RosterFault>
    requires few { length names.old ≤ MOST_DOCTORS }
    requires room { length names.old < length lists.old.lists }
    requires next { (get_or lists.old.lists (length names.old) [] ≡ []) × (get_or lists.old.marks (length names.old) None ≡ None) }
    requires items { length hospitals.now ≤ lists.old.items }
    requires limit { lists.old.limit ≡ MOST_CHOICES }
    ensures passes { OnOk result (first_of (doctor_checks hospitals.now names.old lists.old.held row.now) ≡ None) }
    ensures names { OnOk result ((names.new ≡ names.old ++ name_in row.now ∷ []) × (length names.old < MOST_DOCTORS)) }
    ensures lists { OnOk result (lists.new ≡ with_items (begun lists.old (length names.old) (length names.old + 1)) (list_in hospitals.now row.now)) }
    ensures stops { IfErr result (λ e. Stops (first_of (doctor_checks hospitals.now names.old lists.old.held row.now)) e) }
{
    let place = names.len();
    let i = place as u64 + 1;
    let name = row.cell(0);
    if !is_name(name) {
        return Err(refused(BAD_NAME, DOCTORS_FILE, i, 1));
    }
    match names.add(name) {
        Added::Added(_) => {}
        Added::There(former) => {
            return Err(refused(REPEATED_NAME, DOCTORS_FILE, i, former as u64 + 1));
        }
        Added::NoMemory => return Err(RosterFault::NoMemory),
    }
    if i > MOST_DOCTORS as u64 {
        return Err(refused(TOO_MANY, DOCTORS_FILE, i, DOCTORS_LIMIT));
    }
    let Ok(()) = lists.row(place, i) else {
        unreachable!()
    };
    read_items(row, DOCTORS_FILE, CHOICES_LIMIT, i, hospitals, lists)
}

/// The doctors of a file, and the list of each.
#[derive(Drop)]
pub struct Doctors {
    names: Names,
    lists: Lists,
}

impl Model for Doctors {
    ghost use Rattle.rm_roster.specs.Doctors.{DoctorsData};

    ghost Value = { DoctorsData };

    ghost view = { λ d. record { names = d.names; lists = d.lists } };
}

impl Doctors {
    /// The names of the doctors.
    pub fn names(&self) -> &Names
        ensures { result.now ≡ self.entry.now.names }
    {
        &self.names
    }

    /// The lists of the doctors.
    pub fn lists(&self) -> &Lists
        ensures { result.now ≡ self.entry.now.lists }
    {
        &self.lists
    }

    /// The doctors that a table tells, or its first refusal.
    pub fn read(alloc: Global, table: &Table, hospitals: &Names) -> Result<Doctors, RosterFault>
        ensures { Reads (first_of (doctor_table_checks hospitals.now table.now)) (doctors_of hospitals.now (data_rows table.now)) result }
    {
        match wrong_cell(table, &["doctor"]) {
            Some(field) => Err(refused(WRONG_HEADER, DOCTORS_FILE, 0, field)),
            None => Doctors::read_rows(alloc, table, hospitals),
        }
    }

    // The doctors that the rows after the header tell.
    fn read_rows(alloc: Global, table: &Table, hospitals: &Names) -> Result<Doctors, RosterFault>
        ensures { Reads (first_of (checks_of (doctor_checks_after hospitals.now) (data_rows table.now)))
            (doctors_of hospitals.now (data_rows table.now)) result }
    {
        // One list more than the most doctors, so that the row past the limit has its place too.
        let count = table
            .rows()
            .saturating_sub(1)
            .min(MOST_DOCTORS as usize + 1) as u32;
        let Ok(mut lists) = ListsBuilder::new(alloc, count, hospitals.len(), MOST_CHOICES as u64)
        else {
            return Err(RosterFault::NoMemory);
        };
        let Ok(mut names) = Names::with_capacity(alloc, count) else {
            return Err(RosterFault::NoMemory);
        };
        for i in 1..table.rows() {
            read_doctor(&table.row(i), hospitals, &mut names, &mut lists)?;
        }
        let Ok(lists) = lists.finish(alloc) else {
            return Err(RosterFault::NoMemory);
        };
        Ok(Doctors { names, lists })
    }
}

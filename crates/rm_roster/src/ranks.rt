// The rank lists, as their file tells them.

ghost use Rattle.std.specs.Prelude.{◌≡◌, ◌+◌, ◌<◌, ◌≤◌, ℕ, List, [], ◌∷◌, get_or, length, Some, None, IfOk, IfErr, OnOk};
ghost use Rattle.rm_base.specs.Checks.{first_of, checks_of};
ghost use Rattle.rm_names.specs.Names.{place_of};
ghost use Rattle.rm_base.specs.Reading.{Stops, Reads};
ghost use Rattle.rm_ranks.specs.Built.{ListsTold, begun, with_items};
ghost use Rattle.rm_roster.specs.Cells.{name_in, data_rows};
ghost use Rattle.rm_roster.specs.Items.{list_in};
ghost use Rattle.rm_roster.specs.Ranks.{rank_checks, rank_checks_after, rank_table_checks, ranks_of};

use crate::RosterFault;
use crate::cells::{refused, wrong_cell};
use crate::items::read_items;
use rm_base::codes::{
    MOST_CHOICES, RANKED_LIMIT, RANKS_FILE, REPEATED_ROW, UNKNOWN_NAME, WRONG_HEADER,
};
use rm_names::Names;
use rm_ranks::{ListFault, Lists, ListsBuilder};
use rm_table::{Row, Table};
use std::alloc::Global;

// Reads row i, after the lists of the rows before it, and answers its hospital.
fn read_rank(
    row: &Row<'_>,
    i: u64,
    hospitals: &Names,
    doctors: &Names,
    lists: &mut ListsBuilder,
) -> Result<u32, RosterFault>
    requires room { length hospitals.now ≤ length lists.old.lists }
    requires empty { (h : ℕ) → h < length hospitals.now → get_or lists.old.marks h None ≡ None → get_or lists.old.lists h [] ≡ [] }
    requires items { length doctors.now ≤ lists.old.items }
    requires limit { lists.old.limit ≡ MOST_CHOICES }
    ensures passes { OnOk result (first_of (rank_checks hospitals.now doctors.now i (λ h. get_or lists.old.marks h None) lists.old.held row.now) ≡ None) }
    ensures lists { IfOk result (λ h. (place_of hospitals.now (name_in row.now) ≡ Some h) × (get_or lists.old.marks h None ≡ None)
        × (lists.new ≡ with_items (begun lists.old h i) (list_in doctors.now row.now))) }
    ensures stops { IfErr result (λ e. Stops (first_of (rank_checks hospitals.now doctors.now i
        (λ h. get_or lists.old.marks h None) lists.old.held row.now)) e) }
{
    let Some(h) = hospitals.find(row.cell(0)) else {
        return Err(refused(UNKNOWN_NAME, RANKS_FILE, i, 1));
    };
    match lists.row(h, i) {
        Ok(()) => {}
        Err(ListFault::RowRepeated(former)) => {
            return Err(refused(REPEATED_ROW, RANKS_FILE, i, former));
        }
        Err(_) => return Err(RosterFault::NoMemory),
    }
    match read_items(row, RANKS_FILE, RANKED_LIMIT, i, doctors, lists) {
        Ok(()) => Ok(h),
        Err(fault) => Err(fault),
    }
}

// The rank lists that the rows after the header tell.
fn read_rows(
    alloc: Global,
    table: &Table,
    hospitals: &Names,
    doctors: &Names,
) -> Result<Lists, RosterFault>
    ensures { Reads (first_of (checks_of (rank_checks_after hospitals.now doctors.now) (data_rows table.now)))
        (ranks_of hospitals.now doctors.now (data_rows table.now)) result }
{
    let Ok(mut lists) = ListsBuilder::new(
        alloc,
        hospitals.len(),
        doctors.len(),
        MOST_CHOICES as u64,
    ) else {
        return Err(RosterFault::NoMemory);
    };
    for i in 1..table.rows() {
        match read_rank(&table.row(i), i as u64, hospitals, doctors, &mut lists) {
            Ok(_) => {}
            Err(fault) => return Err(fault),
        }
    }
    let Ok(lists) = lists.finish(alloc) else {
        return Err(RosterFault::NoMemory);
    };
    Ok(lists)
}

/// The rank list of each hospital that a table tells, or its first refusal.
pub fn read_ranks(
    alloc: Global,
    table: &Table,
    hospitals: &Names,
    doctors: &Names,
) -> Result<Lists, RosterFault>
    ensures { Reads (first_of (rank_table_checks hospitals.now doctors.now table.now)) (ranks_of hospitals.now doctors.now (data_rows table.now)) result }
{
    match wrong_cell(table, &["hospital"]) {
        Some(field) => Err(refused(WRONG_HEADER, RANKS_FILE, 0, field)),
        None => read_rows(alloc, table, hospitals, doctors),
    }
}

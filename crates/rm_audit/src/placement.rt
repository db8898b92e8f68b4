// Placements of a command's own file.

ghost use Rattle.std.specs.Prelude.{◌≡◌, ◌<◌, ℕ, find, length, get_or, is_none, None, Some, IfOk, IfErr, OnOk, IsTrue};
ghost use Rattle.rm_base.specs.Checks.{first_of};
ghost use Rattle.rm_base.specs.Reading.{Reads, Stops};
ghost use Rattle.rm_sets.specs.Sets.{below, has};
ghost use Rattle.rm_market.specs.Market.{set_of_places, wishes_of};
ghost use Rattle.rm_market.specs.Stable.{IsPlacement};
ghost use Rattle.rm_case.specs.Case.{IsCase, market};
ghost use Rattle.rm_roster.specs.Cells.{data_rows};
ghost use Rattle.rm_audit.specs.Placement.{AreListedPlaces, is_listed_pair, place_checks, placed_rows_checks, placement_checks, placement_in, places_in, row_doctor, row_place};

use rm_base::ReadFault;
use rm_base::codes::{
    DOCTOR_MISSING, NOT_LISTED, OWN_FILE, REPEATED_DOCTOR, UNKNOWN_DOCTOR, UNKNOWN_HOSPITAL,
    WRONG_HEADER,
};
use rm_case::{Case, OwnFault, Places};
use rm_roster::wrong_cell;
use rm_table::{Row, Table};
use std::alloc::Global;

/// The placement that a table tells: a row names a doctor, and his hospital or none, and each doctor has one row. There is one
/// place for each doctor, in the order of `doctors.csv`: his hospital, by its row of `hospitals.csv`, counted from 0, or none;
/// by `listed` each place is the hospital of a contract that its doctor lists, and by `placement` these contracts are listed
/// ones, at most one for each doctor. `Refused` is the first refusal, of file 5. First comes the header: code 13,
/// with `a` 0 and `b` its first wrong field, counted from 1. Then come the rows in order, where `a` is the row, counted from 1
/// after the header: 60, an unknown doctor, with `b` 1; 63, a doctor of a former row, which is `b`; and, where the second cell
/// isn't empty, 61, an unknown hospital, with `b` 2, and 62, a hospital that the doctor doesn't list or that doesn't rank him,
/// with `b` 2. Last comes 64, where a doctor has no row, with `a` the least such doctor, counted from 1, and `b` 0. `NoMemory`
/// is want of memory.
pub fn read_placement(alloc: Global, case: &Case, table: &Table) -> Result<Places, OwnFault>
    ensures reads { Reads (first_of (placement_checks case.now table.now)) (placement_in case.now table.now) result }
    ensures listed { IfOk result (λ places. AreListedPlaces case.now places) }
    ensures placement { IfOk result (λ places. IsPlacement (wishes_of (market case.now)) (set_of_places (market case.now) places)) }
{
    match wrong_cell(table, &["doctor", "hospital"]) {
        Some(field) => Err(ReadFault::refused(WRONG_HEADER, OWN_FILE, 0, field)),
        None => read_rows(alloc, case, table),
    }
}

// The placement that the rows after the header tell.
fn read_rows(alloc: Global, case: &Case, table: &Table) -> Result<Places, OwnFault>
    ensures case { IsCase case.now }
    ensures reads { Reads (first_of (placed_rows_checks case.now (data_rows table.now))) (places_in case.now (data_rows table.now)) result }
    ensures listed { IfOk result (λ places. AreListedPlaces case.now places) }
{
    let doctors = case.roster().doctors().len();
    let Ok(mut rows) = vec![in alloc; None; doctors as usize] else {
        return Err(OwnFault::NoMemory);
    };
    let Ok(mut places) = Places::empty(alloc, doctors) else {
        return Err(OwnFault::NoMemory);
    };
    for i in 1..table.rows() {
        let place = match read_place(case, &table.row(i), i as u64, &rows) {
            Ok(place) => place,
            Err(fault) => return Err(fault),
        };
        rows[place.doctor as usize] = Some(i as u64);
        places.set(place.doctor, place.hospital);
    }
    match first_missing(&rows) {
        Some(d) => Err(ReadFault::refused(DOCTOR_MISSING, OWN_FILE, d as u64 + 1, 0)),
        None => Ok(places),
    }
}

// The first doctor who has no row.
fn first_missing(rows: &[Option<u64>]) -> Option<u32>
    requires { length rows.now < 4_294_967_296 }
    ensures { result ≡ find (λ d. is_none (get_or rows.now d None)) (below (length rows.now)) }
{
    for d in 0..rows.len() {
        if rows[d].is_none() {
            return Some(d as u32);
        }
    }
    None
}

// A doctor, and his hospital or none.
#[derive(Clone, Copy)]
struct Place {
    doctor: u32,
    hospital: Option<u32>,
}

// The doctor whom row i names, and no former row, and his hospital. Each doctor has his former row, if there is one.
fn read_place(case: &Case, row: &Row<'_>, i: u64, former: &[Option<u64>]) -> Result<Place, OwnFault>
    requires { length former.now ≡ length case.now.roster.doctors }
    ensures passes { OnOk result (first_of (place_checks case.now i (λ d. get_or former.now d None) row.now) ≡ None) }
    ensures place { IfOk result (λ p. (row_doctor case.now row.now ≡ Some p.doctor) × (row_place case.now row.now ≡ p.hospital)) }
    ensures new { IfOk result (λ p. (p.doctor < length former.now) × (get_or former.now p.doctor None ≡ None)) }
    ensures listed { IfOk result (λ p. (h : ℕ) → p.hospital ≡ Some h → IsTrue (is_listed_pair case.now p.doctor h)) }
    ensures stops { IfErr result (λ e. Stops (first_of (place_checks case.now i (λ d. get_or former.now d None) row.now)) e) }
{
    let roster = case.roster();
    let Some(doctor) = roster.doctors().find(row.cell(0)) else {
        return Err(ReadFault::refused(UNKNOWN_DOCTOR, OWN_FILE, i, 1));
    };
    if let Some(row) = former[doctor as usize] {
        return Err(ReadFault::refused(REPEATED_DOCTOR, OWN_FILE, i, row));
    }
    let cell = row.cell(1);
    if cell.is_empty() {
        return Ok(Place {
            doctor,
            hospital: None,
        });
    }
    let Some(h) = roster.hospitals().find(cell) else {
        return Err(ReadFault::refused(UNKNOWN_HOSPITAL, OWN_FILE, i, 2));
    };
    if !is_listed(case, doctor, h) {
        return Err(ReadFault::refused(NOT_LISTED, OWN_FILE, i, 2));
    }
    Ok(Place {
        doctor,
        hospital: Some(h),
    })
}

// Whether doctor d lists hospital h, which ranks him.
fn is_listed(case: &Case, d: u32, h: u32) -> bool
    requires doctor { d < length case.now.roster.doctors }
    requires hospital { h < length case.now.roster.hospitals }
    ensures { result ≡ is_listed_pair case.now d h }
{
    match case.board().find(d, h) {
        Some(x) => holds(case.listed().list(d), x),
        None => false,
    }
}

// Whether a list has contract x.
fn holds(list: &[u32], x: u32) -> bool
    ensures { result ≡ has x list.now }
{
    list.contains(&x)
}

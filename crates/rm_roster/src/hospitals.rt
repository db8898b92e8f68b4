// The hospitals, as their file tells them.

ghost use Rattle.std.specs.Prelude.{◌≡◌, ◌≤◌, ◌+◌, ◌<◌, ℕ, List, [], ◌∷◌, ◌++◌, get_or, length, map, IfOk, Some, None, OnOk};
ghost use Rattle.rm_base.specs.Checks.{checks_of, first_of};
ghost use Rattle.rm_names.specs.Names.{place_of};
ghost use Rattle.rm_base.specs.Reading.{Reads};
ghost use Rattle.rm_roster.specs.Cells.{data_rows, name_in};
ghost use Rattle.rm_roster.specs.Hospitals.{hospital_checks, hospital_table_checks, HospitalsData, hospitals_of, with_hospital, with_text, hospital_checks_after};
ghost use Rattle.rm_roster.specs.Readings.{ReadsTarget, ReadsHospital};

use crate::RosterFault;
use crate::cells::{number, wrong_cell};
use rm_base::codes::{
    ABOVE_LIMIT, BAD_NAME, BAD_NUMBER, GREATEST_CAPACITY, HOSPITALS_FILE, HOSPITALS_LIMIT,
    MOST_HOSPITALS, MOST_SEATS, REPEATED_NAME, SEATS_LIMIT, TARGET_ABOVE_CAPACITY, TOO_MANY,
    WRONG_HEADER,
};
use rm_base::text::is_name;
use rm_base::{NoMemory, Refusal};
use rm_names::{Added, Names};
use rm_table::{Row, Table};
use std::alloc::{AllocError, Global};
use std::marker::Model;

// One hospital.
#[derive(Clone, Copy)]
struct Hospital<'a> {
    name: &'a str,
    prefecture: &'a str,
    capacity: u32,
    target: u32,
}

// A refusal of this file.
fn refuse(code: u8, row: u64, b: u64) -> Refusal
    ensures { result ≡ record { code = code; file = HOSPITALS_FILE; a = row; b = b } }
{
    Refusal {
        code,
        file: HOSPITALS_FILE,
        a: row,
        b,
    }
}

// The target that a cell tells; the empty cell is 0.
fn target(text: &str) -> Option<u32>
    ensures { ReadsTarget text.now result }
{
    if text.is_empty() {
        return Some(0);
    }
    number(text)
}

// The hospital of a row, with the names and the seats of the rows before it.
fn read_hospital<'a>(row: &Row<'a>, names: &Names, seats: u32) -> Result<Hospital<'a>, Refusal>
    requires { seats ≤ MOST_SEATS }
    ensures hospital { ReadsHospital (first_of (hospital_checks names.now seats row.now)) row.now result }
    ensures new { IfOk result (λ _. place_of names.now (name_in row.now) ≡ None) }
    ensures few { IfOk result (λ h. (length names.now < MOST_HOSPITALS) × (seats + h.capacity ≤ MOST_SEATS)) }
{
    let i = names.len() as u64 + 1;
    let name = row.cell(0);
    if !is_name(name) {
        return Err(refuse(BAD_NAME, i, 1));
    }
    if let Some(former) = names.find(name) {
        return Err(refuse(REPEATED_NAME, i, former as u64 + 1));
    }
    let prefecture = row.cell(1);
    if !is_name(prefecture) {
        return Err(refuse(BAD_NAME, i, 2));
    }
    let Some(capacity) = number(row.cell(2)) else {
        return Err(refuse(BAD_NUMBER, i, 3));
    };
    if capacity > GREATEST_CAPACITY {
        return Err(refuse(ABOVE_LIMIT, i, 3));
    }
    let Some(target) = target(row.cell(3)) else {
        return Err(refuse(BAD_NUMBER, i, 4));
    };
    if target > GREATEST_CAPACITY {
        return Err(refuse(ABOVE_LIMIT, i, 4));
    }
    if target > capacity {
        return Err(refuse(TARGET_ABOVE_CAPACITY, i, 4));
    }
    if i > MOST_HOSPITALS as u64 {
        return Err(refuse(TOO_MANY, i, HOSPITALS_LIMIT));
    }
    if seats + capacity > MOST_SEATS {
        return Err(refuse(TOO_MANY, i, SEATS_LIMIT));
    }
    Ok(Hospital {
        name,
        prefecture,
        capacity,
        target,
    })
}

// The number of a name, which is added unless it is held.
fn number_with(names: &mut Names, name: &str) -> Result<u32, NoMemory>
    requires { length names.old < 4_000_000_000 }
    ensures { IfOk result (λ n. (names.new ≡ with_text names.old name.now) × (place_of names.new name.now ≡ Some n)) }
{
    match names.add(name) {
        Added::Added(n) => Ok(n),
        Added::There(n) => Ok(n),
        Added::NoMemory => Err(AllocError),
    }
}

/// The hospitals of a file.
#[derive(Drop)]
pub struct Hospitals {
    names: Names,
    prefectures: Names,
    prefecture_of: Vec<u32>,
    capacities: Vec<u32>,
    targets: Vec<u32>,
}

impl Model for Hospitals {
    ghost use Rattle.rm_roster.specs.Hospitals.{HospitalsData};

    ghost Value = { HospitalsData };

    ghost view = { λ h. record {
      names = h.names;
      prefectures = h.prefectures;
      prefecture_of = h.prefecture_of.items;
      capacities = h.capacities.items;
      targets = h.targets.items;
    } };
}

impl Hospitals {
    // No hospital, and room for the names of so many.
    fn with_capacity(alloc: Global, count: u32) -> Result<Hospitals, NoMemory>
        ensures { IfOk result (λ hospitals. hospitals ≡ hospitals_of []) }
    {
        let names = Names::with_capacity(alloc, count)?;
        Ok(Hospitals {
            names,
            prefectures: Names::new(alloc),
            prefecture_of: Vec::new(alloc),
            capacities: Vec::new(alloc),
            targets: Vec::new(alloc),
        })
    }

    /// The names of the hospitals.
    pub fn names(&self) -> &Names
        ensures { result.now ≡ self.entry.now.names }
    {
        &self.names
    }

    /// The names of the prefectures.
    pub fn prefectures(&self) -> &Names
        ensures { result.now ≡ self.entry.now.prefectures }
    {
        &self.prefectures
    }

    /// Per hospital the number of its prefecture.
    pub fn by_hospital(&self) -> &[u32]
        ensures { result.now ≡ self.entry.now.prefecture_of }
    {
        &self.prefecture_of
    }

    /// The prefecture of hospital h.
    pub fn prefecture_of(&self, h: u32) -> u32
        requires { h < length self.now.prefecture_of }
        ensures { result ≡ get_or self.now.prefecture_of h 0 }
    {
        self.prefecture_of[h as usize]
    }

    /// The capacity of hospital h.
    pub fn capacity(&self, h: u32) -> u32
        requires { h < length self.now.capacities }
        ensures { result ≡ get_or self.now.capacities h 0 }
    {
        self.capacities[h as usize]
    }

    /// The target of hospital h.
    pub fn target(&self, h: u32) -> u32
        requires { h < length self.now.targets }
        ensures { result ≡ get_or self.now.targets h 0 }
    {
        self.targets[h as usize]
    }

    // Adds a hospital whose name is new.
    fn push(&mut self, hospital: &Hospital<'_>) -> Result<(), NoMemory>
        requires names { length self.old.names < 4_000_000_000 }
        requires prefectures { length self.old.prefectures < 4_000_000_000 }
        requires new { place_of self.old.names hospital.now.name.now ≡ None }
        ensures { OnOk result (self.new ≡ with_hospital self.old hospital.now.name.now hospital.now.prefecture.now hospital.now.capacity hospital.now.target) }
    {
        number_with(&mut self.names, hospital.name)?;
        let prefecture = number_with(&mut self.prefectures, hospital.prefecture)?;
        self.prefecture_of.push(prefecture)?;
        self.capacities.push(hospital.capacity)?;
        self.targets.push(hospital.target)?;
        Ok(())
    }

    /// The hospitals that a table tells, or its first refusal.
    pub fn read(alloc: Global, table: &Table) -> Result<Hospitals, RosterFault>
        ensures { Reads (first_of (hospital_table_checks table.now)) (hospitals_of (data_rows table.now)) result }
    {
        match wrong_cell(table, &["hospital", "prefecture", "capacity", "target"]) {
            Some(field) => Err(RosterFault::Refused(refuse(WRONG_HEADER, 0, field))),
            None => Hospitals::read_rows(alloc, table),
        }
    }

    // The hospitals that the rows after the header tell.
    fn read_rows(alloc: Global, table: &Table) -> Result<Hospitals, RosterFault>
        ensures { Reads (first_of (checks_of hospital_checks_after (data_rows table.now))) (hospitals_of (data_rows table.now)) result }
    {
        let count = table.rows().min(MOST_HOSPITALS as usize) as u32;
        let Ok(mut hospitals) = Hospitals::with_capacity(alloc, count) else {
            return Err(RosterFault::NoMemory);
        };
        let mut seats = 0;
        for i in 1..table.rows() {
            let hospital = match read_hospital(&table.row(i), hospitals.names(), seats) {
                Ok(hospital) => hospital,
                Err(refusal) => return Err(RosterFault::Refused(refusal)),
            };
            let Ok(()) = hospitals.push(&hospital) else {
                return Err(RosterFault::NoMemory);
            };
            seats += hospital.capacity;
        }
        Ok(hospitals)
    }
}

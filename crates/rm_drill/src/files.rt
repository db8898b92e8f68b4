// The hospitals' file and the policy's file of a generated nation.

ghost use Rattle.std.specs.Prelude.{◌≡◌, ◌≤◌, ◌<◌, ◌*◌, ◌^◌, ◌++◌, ◌∷◌, [], ℕ, List, length, get_or, decimal, string_bytes, IfOk, OnOk};
ghost use Rattle.csv.specs.Writing.{row_text};
ghost use Rattle.rm_drill_laws.specs.Written.{flexible_writer};
ghost use Rattle.rm_drill.specs.Open.{Holds};
ghost use Rattle.rm_drill.specs.Files.{cap, entry, hospital_name, hospital_row, hospitals_text, policy_text, prefecture_name, whole_sum};
ghost use Rattle.rm_drill.specs.Hospitals.{prefecture_of};

use crate::NoMemory;
use crate::hospitals::Seats;
use crate::writing::{close, open_writer, write_row};
use csv::Writer;
use std::alloc::Global;

// How many prefectures there are.
const PREFECTURES: usize = 47;

// The cells of a hospital's row: their strings serve one row after the other.
#[derive(Drop)]
struct Cells {
    hospital: String,
    prefecture: String,
    capacity: String,
    target: String,
}

// The cells of a row, none of them printed.
fn no_cells(alloc: Global) -> Cells {
    Cells {
        hospital: String::new(alloc),
        prefecture: String::new(alloc),
        capacity: String::new(alloc),
        target: String::new(alloc),
    }
}

// Prints the name of hospital h, counted from 0, in place of what the cell held.
fn print_hospital(cell: &mut String, h: usize) -> Result<(), NoMemory>
    requires { h < 10_000 }
    ensures { OnOk result (string_bytes cell.new ≡ hospital_name h) }
{
    let number = h as u64 + 1;
    cell.clear();
    write!(cell, "H{number:05}")
}

// Prints the name of prefecture q, counted from 0, in place of what the cell held.
fn print_prefecture(cell: &mut String, q: usize) -> Result<(), NoMemory>
    requires { q < 47 }
    ensures { OnOk result (string_bytes cell.new ≡ prefecture_name q) }
{
    let number = q as u64 + 1;
    cell.clear();
    write!(cell, "P{number:02}")
}

// Prints a number in place of what the cell held.
fn print_number(cell: &mut String, number: u32) -> Result<(), NoMemory>
    ensures { OnOk result (string_bytes cell.new ≡ decimal number) }
{
    cell.clear();
    write!(cell, "{number}")
}

// Writes the row of hospital h.
fn write_hospital(
    writer: &mut Writer<Vec<u8>>,
    cells: &mut Cells,
    h: usize,
    capacity: u32,
    target: u32,
) -> Result<(), NoMemory>
    requires { h < 10_000 }
    ensures { OnOk result ((text : List ℕ) → Holds writer.old text →
        Holds writer.new (text ++ row_text flexible_writer (hospital_name h ∷ prefecture_name (prefecture_of h) ∷ decimal capacity ∷ decimal target ∷ []))) }
{
    print_hospital(&mut cells.hospital, h)?;
    print_prefecture(&mut cells.prefecture, h % PREFECTURES)?;
    print_number(&mut cells.capacity, capacity)?;
    print_number(&mut cells.target, target)?;
    write_row(
        writer,
        &[
            cells.hospital.as_bytes(),
            cells.prefecture.as_bytes(),
            cells.capacity.as_bytes(),
            cells.target.as_bytes(),
        ],
    )
}

// The value of hospital h.
fn value_of(values: &[u32], h: usize) -> u32
    requires { h < length values.now }
    ensures { result ≡ get_or values.now h 0 }
{
    values[h]
}

/// The text of `hospitals.csv` for hospitals with these seats: the header, and a row for each hospital in its order, with its name,
/// `H` and its number from 1 in five digits, its prefecture's name, its capacity and its target. There are as many targets as
/// capacities.
pub fn hospitals_text(alloc: Global, seats: &Seats) -> Result<Vec<u8>, NoMemory>
    requires few { length seats.now.capacities.items ≤ 10_000 }
    requires each { length seats.now.targets.items ≡ length seats.now.capacities.items }
    ensures { IfOk result (λ text. text.items ≡ hospitals_text seats.now.capacities.items seats.now.targets.items) }
{
    let mut writer = open_writer(alloc);
    write_row(
        &mut writer,
        &[b"hospital", b"prefecture", b"capacity", b"target"],
    )?;
    let mut cells = no_cells(alloc);
    for h in 0..seats.capacities.len() {
        let capacity = value_of(&seats.capacities, h);
        let target = value_of(&seats.targets, h);
        write_hospital(&mut writer, &mut cells, h, capacity, target)?;
    }
    let text = close(writer)?;
    Ok(text)
}

// What the hospitals of prefecture q have together.
fn whole_sum(values: &[u32], q: usize) -> u64
    requires { length values.now ≤ 10_000 }
    ensures sum { result ≡ whole_sum values.now q }
    ensures small { result ≤ 10_000 * 2 ^ 32 }
{
    let mut total = 0;
    for h in 0..values.len() {
        if h % PREFECTURES == q {
            total += values[h] as u64;
        }
    }
    total
}

// The cap of prefecture q.
fn cap_of(seats: &Seats, q: usize) -> u64
    requires capacities { length seats.now.capacities.items ≤ 10_000 }
    requires targets { length seats.now.targets.items ≤ 10_000 }
    ensures { result ≡ cap seats.now.capacities.items seats.now.targets.items q }
{
    let targets = whole_sum(&seats.targets, q);
    let capacities = whole_sum(&seats.capacities, q);
    targets + capacities.saturating_sub(targets) / 2
}

// Adds the entry of a prefecture.
fn add_entry(text: &mut String, name: &str, cap: u64) -> Result<(), NoMemory>
    ensures { OnOk result (string_bytes text.new ≡ string_bytes text.old ++ entry name.now cap) }
{
    write!(text, "\n[[prefecture]]\ncap = {cap}\nname = \"{name}\"\n")
}

/// The text of `policy.toml` for hospitals with these seats: a flexible policy with an entry for each of the 47 prefectures. Its cap
/// is the sum of its targets and half of its seats past them, rounded down.
pub fn policy_text(alloc: Global, seats: &Seats) -> Result<Vec<u8>, NoMemory>
    requires capacities { length seats.now.capacities.items ≤ 10_000 }
    requires targets { length seats.now.targets.items ≤ 10_000 }
    ensures { IfOk result (λ text. text.items ≡ policy_text seats.now.capacities.items seats.now.targets.items) }
{
    let mut text = String::new(alloc);
    write!(text, "kind = \"flexible\"\nversion = 1\n")?;
    let mut name = String::new(alloc);
    for q in 0..PREFECTURES {
        print_prefecture(&mut name, q)?;
        add_entry(&mut text, &name, cap_of(seats, q))?;
    }
    Ok(text.into_bytes())
}

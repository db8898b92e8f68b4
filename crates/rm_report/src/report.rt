// The report of a placement by prefectures.

ghost use Rattle.std.specs.Prelude.{◌≡◌, ◌<◌, ◌≤◌, ◌++◌, ◌∷◌, [], ℕ, List, None, All, length, map, get_or, string_bytes, decimal, IfOk, OnOk};
ghost use Rattle.std.specs.Option.{option_map_or};
ghost use Rattle.csv.specs.Writing.{default_writer, row_text};
ghost use Rattle.rm_sets.specs.Sets.{below};
ghost use Rattle.rm_report.specs.Counts.{AreCounts};
ghost use Rattle.rm_report.specs.Open.{Holds};
ghost use Rattle.rm_report.specs.Report.{applicants_at, cap_of_entry, country_row, figures_of, prefecture_name, prefecture_rows, prefecture_text, report_header, report_row};
ghost use Rattle.rm_report.specs.Texts.{AreHospitals, csv_text, hospital_name};

use crate::counts::Counts;
use crate::writing::{close, open_writer, write_row};
use csv::Writer;
use rm_base::NoMemory;
use rm_case::{Case, Places};
use std::alloc::Global;

/// What is told of some hospitals together.
#[derive(Clone, Copy)]
pub struct Figures {
    pub capacity: u64,
    pub target: u64,
    pub placed: u64,
    pub applicants: u64,
    pub first: u64,
}

// The cells of a row that are printed: their strings serve one row after the other.
#[derive(Drop)]
struct Cells {
    capacity: String,
    target: String,
    cap: String,
    placed: String,
    applicants: String,
    first: String,
}

// Cells with nothing in them.
fn no_cells(alloc: Global) -> Cells {
    Cells {
        capacity: String::new(alloc),
        target: String::new(alloc),
        cap: String::new(alloc),
        placed: String::new(alloc),
        applicants: String::new(alloc),
        first: String::new(alloc),
    }
}

// Prints a number in place of what the cell held.
fn print_number(cell: &mut String, number: u64) -> Result<(), NoMemory>
    ensures { OnOk result (string_bytes cell.new ≡ decimal number) }
{
    cell.clear();
    write!(cell, "{number}")
}

// Prints a cap, or nothing, in place of what the cell held.
fn print_cap(cell: &mut String, cap: Option<u32>) -> Result<(), NoMemory>
    ensures { OnOk result (string_bytes cell.new ≡ option_map_or decimal cap []) }
{
    cell.clear();
    let Some(cap) = cap else {
        return Ok(());
    };
    write!(cell, "{cap}")
}

// Prints the cells of a row.
fn print_cells(cells: &mut Cells, cap: Option<u32>, figures: &Figures) -> Result<(), NoMemory>
    ensures capacity { OnOk result (string_bytes cells.new.capacity ≡ decimal figures.now.capacity) }
    ensures target { OnOk result (string_bytes cells.new.target ≡ decimal figures.now.target) }
    ensures cap { OnOk result (string_bytes cells.new.cap ≡ option_map_or decimal cap []) }
    ensures placed { OnOk result (string_bytes cells.new.placed ≡ decimal figures.now.placed) }
    ensures applicants { OnOk result (string_bytes cells.new.applicants ≡ decimal figures.now.applicants) }
    ensures first { OnOk result (string_bytes cells.new.first ≡ decimal figures.now.first) }
{
    print_number(&mut cells.capacity, figures.capacity)?;
    print_number(&mut cells.target, figures.target)?;
    print_cap(&mut cells.cap, cap)?;
    print_number(&mut cells.placed, figures.placed)?;
    print_number(&mut cells.applicants, figures.applicants)?;
    print_number(&mut cells.first, figures.first)
}

// Writes a row whose cells are printed.
fn write_printed(
    writer: &mut Writer<Vec<u8>>,
    cells: &Cells,
    prefecture: &str,
    hospital: &str,
) -> Result<(), NoMemory>
    ensures { OnOk result ((text : List ℕ) → Holds writer.old text → Holds writer.new (text ++ row_text default_writer
        (prefecture.now ∷ hospital.now ∷ string_bytes cells.now.capacity ∷ string_bytes cells.now.target ∷ string_bytes cells.now.cap
        ∷ string_bytes cells.now.placed ∷ string_bytes cells.now.applicants ∷ string_bytes cells.now.first ∷ []))) }
{
    write_row(
        writer,
        &[
            prefecture.as_bytes(),
            hospital.as_bytes(),
            cells.capacity.as_bytes(),
            cells.target.as_bytes(),
            cells.cap.as_bytes(),
            cells.placed.as_bytes(),
            cells.applicants.as_bytes(),
            cells.first.as_bytes(),
        ],
    )
}

// Writes a row.
fn write_figures(
    writer: &mut Writer<Vec<u8>>,
    cells: &mut Cells,
    prefecture: &str,
    hospital: &str,
    cap: Option<u32>,
    figures: &Figures,
) -> Result<(), NoMemory>
    ensures { OnOk result ((text : List ℕ) → Holds writer.old text → Holds writer.new (text ++ row_text default_writer
        (report_row prefecture.now hospital.now cap figures.now))) }
{
    print_cells(cells, cap, figures)?;
    write_printed(writer, cells, prefecture, hospital)
}

// Writes the header.
fn write_header(writer: &mut Writer<Vec<u8>>) -> Result<(), NoMemory>
    ensures { OnOk result ((text : List ℕ) → Holds writer.old text → Holds writer.new (text ++ row_text default_writer report_header)) }
{
    write_row(
        writer,
        &[
            b"prefecture",
            b"hospital",
            b"capacity",
            b"target",
            b"cap",
            b"placed",
            b"applicants",
            b"first",
        ],
    )
}

// A case, places in it, and what is counted of them.
#[derive(Drop)]
struct Report<'a> {
    case: &'a Case,
    places: &'a Places,
    counts: Counts,
}

// What is told of hospital h.
fn figures_of(report: &Report<'_>, h: u32) -> Figures
    requires report { AreCounts report.now.case.now report.now.places.now report.now.counts }
    requires hospital { h < length report.now.case.now.roster.hospitals }
    ensures { result ≡ figures_of report.now.case.now report.now.places.now (h ∷ []) }
{
    let roster = report.case.roster();
    Figures {
        capacity: roster.capacity(h) as u64,
        target: roster.target(h) as u64,
        placed: report.counts.placed[h as usize] as u64,
        applicants: report.counts.applicants.hospitals[h as usize] as u64,
        first: report.counts.first[h as usize] as u64,
    }
}

// What is told of some hospitals together, where so many doctors apply.
fn sums_of(report: &Report<'_>, hospitals: &[u32], applicants: u32) -> Figures
    requires report { AreCounts report.now.case.now report.now.places.now report.now.counts }
    requires hospitals { All (λ h. h < length report.now.case.now.roster.hospitals) hospitals.now }
    requires few { length hospitals.now ≤ 10_000 }
    requires applicants { applicants ≡ applicants_at report.now.case.now hospitals.now }
    ensures { result ≡ figures_of report.now.case.now report.now.places.now hospitals.now }
{
    let roster = report.case.roster();
    let mut capacity = 0;
    let mut target = 0;
    let mut placed = 0;
    let mut first = 0;
    for i in 0..hospitals.len() {
        let h = hospitals[i];
        capacity += roster.capacity(h) as u64;
        target += roster.target(h) as u64;
        placed += report.counts.placed[h as usize] as u64;
        first += report.counts.first[h as usize] as u64;
    }
    Figures {
        capacity,
        target,
        placed,
        applicants: applicants as u64,
        first,
    }
}

// The cap of the entry of prefecture q, if it has one.
fn cap_of_entry(case: &Case, q: u32) -> Option<u32>
    requires { q < length case.now.roster.prefectures }
    ensures { result ≡ cap_of_entry case.now q }
{
    let policy = case.policy();
    match policy.entry(case.roster().prefectures().name(q)) {
        Some(entry) => Some(policy.group_steps(entry).cap()),
        None => None,
    }
}

// Writes the rows of prefecture q.
fn write_prefecture(
    writer: &mut Writer<Vec<u8>>,
    cells: &mut Cells,
    report: &Report<'_>,
    q: u32,
) -> Result<(), NoMemory>
    requires report { AreCounts report.now.case.now report.now.places.now report.now.counts }
    requires prefecture { q < length report.now.case.now.roster.prefectures }
    ensures { OnOk result ((text : List ℕ) → Holds writer.old text → Holds writer.new (text ++ csv_text
        (prefecture_rows report.now.case.now report.now.places.now q))) }
{
    let roster = report.case.roster();
    let name = roster.prefectures().name(q);
    let hospitals = roster.hospitals_in(q);
    for i in 0..hospitals.len() {
        let h = hospitals[i];
        let figures = figures_of(report, h);
        write_figures(
            writer,
            cells,
            name,
            roster.hospitals().name(h),
            None,
            &figures,
        )?;
    }
    let figures = sums_of(
        report,
        hospitals,
        report.counts.applicants.prefectures[q as usize],
    );
    write_figures(
        writer,
        cells,
        name,
        "",
        cap_of_entry(report.case, q),
        &figures,
    )
}

// The numbers below n.
fn below(alloc: Global, n: u32) -> Result<Vec<u32>, NoMemory>
    ensures { IfOk result (λ numbers. numbers.items ≡ below n) }
{
    let mut numbers = Vec::new(alloc);
    for k in 0..n {
        numbers.push(k)?;
    }
    Ok(numbers)
}

// Writes the row of the whole country.
fn write_country(
    alloc: Global,
    writer: &mut Writer<Vec<u8>>,
    cells: &mut Cells,
    report: &Report<'_>,
) -> Result<(), NoMemory>
    requires { AreCounts report.now.case.now report.now.places.now report.now.counts }
    ensures { OnOk result ((text : List ℕ) → Holds writer.old text → Holds writer.new (text ++ row_text default_writer
        (country_row report.now.case.now report.now.places.now))) }
{
    let roster = report.case.roster();
    let hospitals = below(alloc, roster.hospitals().len())?;
    let figures = sums_of(report, &hospitals, report.counts.applicants.country);
    write_figures(writer, cells, "", "", None, &figures)
}

// The text of a report.
fn report_text(alloc: Global, report: &Report<'_>) -> Result<Vec<u8>, NoMemory>
    requires { AreCounts report.now.case.now report.now.places.now report.now.counts }
    ensures { IfOk result (λ text. text.items ≡ prefecture_text report.now.case.now report.now.places.now) }
{
    let mut writer = open_writer(alloc, 0)?;
    write_header(&mut writer)?;
    let mut cells = no_cells(alloc);
    for q in 0..report.case.roster().prefectures().len() {
        write_prefecture(&mut writer, &mut cells, report, q)?;
    }
    write_country(alloc, &mut writer, &mut cells, report)?;
    let text = close(writer)?;
    Ok(text)
}

/// The report of a placement, as comma-separated cells: the header `prefecture,hospital,capacity,target,cap,placed,applicants,first`, then
/// for each prefecture in its order a row per hospital, in the order of `hospitals.csv`, and one for the whole prefecture, whose cell of
/// the hospital is empty, and last one for the country, whose cells of both names are empty. `capacity` and `target` are those of the
/// hospital, in seats. `placed` counts the doctors who have their place there, `applicants` those who list a contract there, and `first`
/// those whose place is the hospital of the first of their listed contracts. Of a prefecture and of the country these are sums, but a
/// doctor counts once among the applicants of each. `cap` is that of the prefecture's entry in the policy, and stands in the row of the
/// whole prefecture alone, where there is an entry. There is one place per doctor, and each is the number of a hospital of the case.
pub fn prefecture_text(alloc: Global, case: &Case, places: &Places) -> Result<Vec<u8>, NoMemory>
    requires doctors { length places.now ≡ length case.now.roster.doctors }
    requires hospitals { AreHospitals (length case.now.roster.hospitals) places.now }
    ensures { IfOk result (λ text. text.items ≡ prefecture_text case.now places.now) }
{
    let counts = Counts::of(alloc, case, places)?;
    let report = Report {
        case,
        places,
        counts,
    };
    report_text(alloc, &report)
}

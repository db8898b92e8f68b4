// The text of a finding on a placement.

ghost use Rattle.std.specs.Prelude.{◌≡◌, ◌<◌, ◌++◌, [], ◌∷◌, ℕ, List, codes, length, IfOk, OnOk};
ghost use Rattle.csv.specs.Writing.{default_writer, row_text};
ghost use Rattle.rm_base.specs.Text.{Text};
ghost use Rattle.rm_market.specs.Board.{contract_count};
ghost use Rattle.rm_market.specs.declared.Finding.TheVariants as findings;
ghost use Rattle.rm_case.specs.Case.{market};
ghost use Rattle.rm_report.specs.Open.{Holds};
ghost use Rattle.rm_report.specs.Texts.{IsFindingOf, finding_row, finding_text, name_of_doctor, name_of_hospital, node_name};

use crate::certificate::{name_of_doctor, name_of_hospital, print_node};
use crate::writing::{close, open_writer, write_row};
use csv::Writer;
use rm_base::NoMemory;
use rm_case::Case;
use rm_market::Finding;
use std::alloc::Global;

// Writes a row of `over` and a node.
fn write_node(
    alloc: Global,
    writer: &mut Writer<Vec<u8>>,
    case: &Case,
    node: u32,
) -> Result<(), NoMemory>
    requires { node < length (market case.now).board.nodes }
    ensures { OnOk result ((text : List ℕ) → Holds writer.old text
        → Holds writer.new (text ++ row_text default_writer (codes "over" ∷ node_name case.now node ∷ []))) }
{
    let mut cell = String::new(alloc);
    print_node(&mut cell, case, Some(node))?;
    write_row(writer, &[b"over", cell.as_bytes()])
}

// Writes a row of a word, and the doctor and the hospital of contract x.
fn write_contract(
    writer: &mut Writer<Vec<u8>>,
    case: &Case,
    word: &[u8],
    x: u32,
) -> Result<(), NoMemory>
    requires { x < contract_count (market case.now).board }
    ensures { OnOk result ((text : List ℕ) → Holds writer.old text
        → Holds writer.new (text ++ row_text default_writer (word.now ∷ name_of_doctor case.now x ∷ name_of_hospital case.now x ∷ []))) }
{
    let doctor = name_of_doctor(case, x);
    let hospital = name_of_hospital(case, x);
    write_row(writer, &[word, doctor.as_bytes(), hospital.as_bytes()])
}

// Writes the row of a finding.
fn write_finding(
    alloc: Global,
    writer: &mut Writer<Vec<u8>>,
    case: &Case,
    finding: Finding,
) -> Result<(), NoMemory>
    requires { IsFindingOf (market case.now).board finding }
    ensures { OnOk result ((text : List ℕ) → Holds writer.old text → Holds writer.new (text ++ row_text default_writer (finding_row case.now finding))) }
{
    match finding {
        Finding::Stable => write_row(writer, &[b"stable"]),
        Finding::OverCap(node) => write_node(alloc, writer, case, node),
        Finding::Unwanted(z) => write_contract(writer, case, b"unwanted", z),
        Finding::Blocks(x) => write_contract(writer, case, b"blocks", x),
    }
}

/// The text of a finding, as one row of comma-separated cells: `stable`; or `over` and the node that is over its cap, told as
/// `hospital`, `prefecture` or `group`, one space and its name; or `unwanted`, and the doctor and the hospital of the contract whose
/// removal is better; or `blocks`, and the doctor and the hospital of the contract that blocks. The node or the contract is a number
/// of the case's board.
pub fn finding_text(alloc: Global, case: &Case, finding: Finding) -> Result<Vec<u8>, NoMemory>
    requires { IsFindingOf (market case.now).board finding }
    ensures { IfOk result (λ text. text.items ≡ finding_text case.now finding) }
{
    let mut writer = open_writer(alloc, 0)?;
    write_finding(alloc, &mut writer, case, finding)?;
    let text = close(writer)?;
    Ok(text)
}

// Rows of any length, written as comma-separated cells.

ghost use Rattle.std.specs.Prelude.{◌≡◌, ◌++◌, ℕ, List, [], map, IfOk, OnOk};
ghost use Rattle.csv.specs.Writing.{row_text};
ghost use Rattle.rm_drill_laws.specs.Written.{flexible_writer};
ghost use Rattle.rm_drill.specs.Open.{Holds};

use crate::NoMemory;
use csv::{Writer, WriterBuilder};
use std::alloc::{AllocError, Global};

// A writer that has no rows yet.
pub fn open_writer(alloc: Global) -> Writer<Vec<u8>>
    ensures { Holds result [] }
{
    WriterBuilder::new()
        .flexible(true)
        .from_writer(Vec::new(alloc))
}

// Writes a row.
pub fn write_row(writer: &mut Writer<Vec<u8>>, row: &[&[u8]]) -> Result<(), NoMemory>
    ensures { OnOk result ((text : List ℕ) → Holds writer.old text → Holds writer.new (text ++ row_text flexible_writer (map (λ f. f.now) row.now))) }
{
    match writer.write_fields(row) {
        Ok(()) => Ok(()),
        Err(_) => Err(AllocError),
    }
}

// The text that was written.
pub fn close(writer: Writer<Vec<u8>>) -> Result<Vec<u8>, NoMemory>
    ensures { IfOk result (λ v. (text : List ℕ) → Holds writer text → v.items ≡ text) }
{
    match writer.into_inner() {
        Ok(text) => Ok(text),
        Err(_) => Err(AllocError),
    }
}

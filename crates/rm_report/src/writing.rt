// Rows of cells, written with the defaults of `csv`.

ghost use Rattle.std.specs.Prelude.{◌≡◌, ◌++◌, ℕ, List, [], map, IfOk, OnOk};
ghost use Rattle.csv.specs.Writing.{default_writer, row_text};
ghost use Rattle.rm_report.specs.Open.{Holds};

use csv::{Writer, WriterBuilder};
use rm_base::NoMemory;
use std::alloc::{AllocError, Global};

/// A writer with the defaults of `csv`, with room for a text of so many bytes. `NoMemory` is want of memory, here and below.
pub fn open_writer(alloc: Global, bytes: usize) -> Result<Writer<Vec<u8>>, NoMemory>
    ensures { IfOk result (λ writer. Holds writer []) }
{
    let mut text = Vec::new(alloc);
    text.reserve(bytes)?;
    Ok(WriterBuilder::new().from_writer(text))
}

/// Writes a row of cells.
pub fn write_row(writer: &mut Writer<Vec<u8>>, row: &[&[u8]]) -> Result<(), NoMemory>
    ensures { OnOk result ((text : List ℕ) → Holds writer.old text → Holds writer.new (text ++ row_text default_writer (map (λ f. f.now) row.now))) }
{
    match writer.write_fields(row) {
        Ok(()) => Ok(()),
        Err(_) => Err(AllocError),
    }
}

/// The text that was written.
pub fn close(writer: Writer<Vec<u8>>) -> Result<Vec<u8>, NoMemory>
    ensures { IfOk result (λ v. (text : List ℕ) → Holds writer text → v.items ≡ text) }
{
    match writer.into_inner() {
        Ok(text) => Ok(text),
        Err(_) => Err(AllocError),
    }
}

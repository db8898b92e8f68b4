//! Tables: the rows of a text of CSV, all in one buffer.
#![tactic(auto)]

ghost use Rattle.std.specs.Prelude.{◌≡◌, ◌<◌, ◌∷◌, ◌++◌, ℕ, None, OnOk, [], get_or, length};
ghost use Rattle.csv.specs.Records.{AllText};
ghost use Rattle.rm_table.specs.Rows.{bad_text};
ghost use Rattle.rm_table.specs.Packed.{ArePackedRows, rows_cut};
ghost use Rattle.rm_table.specs.Answer.{ReadsRows};

mod cells;
mod header;
mod packed_cells;
mod rows;
mod source;

pub use header::{read_header, wrong_cell};
use packed_cells::{PackedCells, start_of};
pub use rows::Rows;
pub use source::{RowSource, TableRows, check_rest};
use std::alloc::{AllocError, Global};
use std::marker::Model;

/// Why a table was not read.
#[derive(Clone, Copy, Debug, PartialEq, Eq)]
pub enum TableFault {
    /// This row, counted from 0, is the first that has a cell which isn't UTF-8.
    BadText(u64),
    /// Memory was wanting, or there are more than 4,294,967,295 cells, or bytes in all cells.
    NoMemory,
}

// Adds the cells of the row at hand.
fn push_cells(cells: &mut PackedCells, rows: &Rows<'_>) -> Result<(), AllocError>
    ensures { OnOk result (cells.new ≡ cells.old ++ rows.now.row) }
{
    for j in 0..rows.cells() {
        cells.push(rows.cell(j))?;
    }
    Ok(())
}

// Adds the row at hand.
fn push_row(ends: &mut Vec<u32>, cells: &mut PackedCells, rows: &Rows<'_>) -> Result<(), AllocError>
    requires { ArePackedRows ends.old.items cells.old }
    ensures packed { OnOk result (ArePackedRows ends.new.items cells.new) }
    ensures rows { OnOk result (rows_cut 0 ends.new.items cells.new ≡ rows_cut 0 ends.old.items cells.old ++ rows.now.row ∷ []) }
{
    push_cells(cells, rows)?;
    let Ok(end) = u32::try_from(cells.len()) else {
        return Err(AllocError);
    };
    ends.push(end)?;
    Ok(())
}

/// The rows of a text of CSV. A row is a list of cells, none of which has a space or a tab at its ends. Its last cell isn't
/// empty, and each row has a cell.
#[derive(Drop)]
pub struct Table {
    // All cells, row by row.
    cells: PackedCells,
    // How many cells come before the end of each row.
    ends: Vec<u32>,
}

impl Model for Table {
    ghost use Rattle.std.specs.Prelude.{List};
    ghost use Rattle.rm_table.specs.Rows.{Row};
    ghost use Rattle.rm_table.specs.Packed.{rows_cut, ArePackedRows};

    ghost Value = { List Row };

    ghost view = { λ t. rows_cut 0 t.ends.items t.cells };

    ghost invariant = { λ t. ArePackedRows t.ends.items t.cells };
}

impl Table {
    /// Reads the rows of a text of CSV: commas, double quotes, records of any length. The bytes EF BB BF at its very
    /// beginning are dropped. From each cell spaces and tabs are dropped at both ends, and then empty cells at the end of a
    /// record, and records without a cell. `BadText` comes exactly where a row that is left has a cell that isn't UTF-8.
    /// More than 4,294,967,295 cells, or bytes in all cells, are answered as want of memory.
    pub fn read(alloc: Global, bytes: &[u8]) -> Result<Table, TableFault>
        ensures { ReadsRows bytes.now result }
    {
        // Room for all bytes, and for cells of three bytes and a comma.
        let Ok(mut cells) = PackedCells::with_capacity(alloc, bytes.len(), bytes.len() / 4) else {
            return Err(TableFault::NoMemory);
        };
        let mut rows = Rows::open(alloc, bytes);
        let mut ends = Vec::new(alloc);
        'rows: while rows.next()? {
            let Ok(()) = push_row(&mut ends, &mut cells, &rows) else {
                return Err(TableFault::NoMemory);
            };
        }
        Ok(Table { cells, ends })
    }

    /// How many rows there are. A header is row 0.
    pub fn rows(&self) -> usize
        ensures { result ≡ length self.now }
    {
        self.ends.len()
    }

    /// The row with this number, lent.
    pub fn row(&self, i: usize) -> Row<'_>
        requires { i < length self.now }
        ensures { result ≡ get_or self.now i [] }
    {
        Row {
            cells: &self.cells,
            start: start_of(&self.ends, i),
            end: self.ends[i] as usize,
        }
    }

    /// The law that each cell of a table is UTF-8. It does nothing.
    pub fn is_text(&self)
        ensures { bad_text self.now ≡ None }
    {
        self.cells.are_text();
        let _ends = &self.ends;
    }

    // A row without cells, lent.
    fn no_row(&self) -> Row<'_>
        ensures { result ≡ [] }
    {
        Row {
            cells: &self.cells,
            start: 0,
            end: 0,
        }
    }

    /// Cell j of row i, both counted from 0; the empty text past the end of the row.
    pub fn cell(&self, i: usize, j: usize) -> &str
        requires { i < length self.now }
        ensures { result.now ≡ get_or (get_or self.entry.now i []) j [] }
    {
        self.row(i).cell(j)
    }
}

/// A row of a table, lent.
#[derive(Drop)]
pub struct Row<'a> {
    cells: &'a PackedCells,
    start: usize,
    end: usize,
}

impl<'a> Model for Row<'a> {
    ghost use Rattle.std.specs.Prelude.{List, ℕ, ◌≤◌, length};
    ghost use Rattle.rm_table.specs.Packed.{between};

    ghost Value = { List (List ℕ) };

    ghost view = { λ r. between r.start r.end r.cells.now };

    ghost invariant = { λ r. (r.start ≤ r.end) × (r.end ≤ length r.cells.now) };
}

impl<'a> Row<'a> {
    // Each cell is text.
    fn is_text(&self)
        ensures { AllText self.now }
    {
        self.cells.are_text();
        let _end = self.end;
    }

    /// How many cells there are up to the last one that isn't empty.
    pub fn len(&self) -> usize
        ensures { result ≡ length self.now }
    {
        self.end - self.start
    }

    /// The cell at a place, counted from 0; the empty text past the end.
    pub fn cell(&self, j: usize) -> &'a str
        ensures { result.now ≡ get_or self.now j [] }
    {
        if j >= self.end - self.start {
            return "";
        }
        self.cells.get(self.start + j)
    }
}

#[cfg(test)]
mod tests;

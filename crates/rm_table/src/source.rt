// Rows that are given one at a time, whatever they come from.

ghost use Rattle.std.specs.Prelude.{◌≡◌, [], get_or, length};
ghost use Rattle.rm_table.specs.Source.{ChecksRest, Moves, Stand, begins_at};

use crate::{Row, Table, TableFault};
use std::marker::Model;

/// Rows that are given one at a time. A reader that is written over this trait gives the same result for a text of CSV, of
/// which no more than one record is kept, and for a table that was read from it.
pub trait RowSource {
    /// How many rows were given, the one given last, and those to come.
    ghost stand: { Self → Stand };

    /// Takes the next row, and says whether there was one; past the last one, a row without cells is at hand. `BadText` comes
    /// exactly where the next row has a cell that isn't UTF-8, with the row's number; a header is row 0. `NoMemory` is want of
    /// memory. After a fault nothing is said of the rows.
    fn next(&mut self) -> Result<bool, TableFault>
        ensures { Moves (stand self.old) (stand self.new) result };

    /// How many cells the row given last has, up to the last one that isn't empty.
    fn cells(&self) -> usize
        ensures { result ≡ length (stand self.now).row };

    /// The cell at a place of the row given last, counted from 0; the empty text past the row's end.
    fn cell(&self, j: usize) -> &str
        ensures { result.now ≡ get_or (stand self.entry.now).row j [] };
}

/// The rows of a table, one at a time.
#[derive(Drop)]
pub struct TableRows<'a> {
    table: &'a Table,
    // The row at hand.
    row: Row<'a>,
    // How many rows were given.
    number: usize,
}

impl<'a> Model for TableRows<'a> {
    ghost use Rattle.std.specs.Prelude.{drop};
    ghost use Rattle.rm_table.specs.Source.{Stand};

    ghost Value = { Stand };

    ghost view = { λ r. record { number = r.number; row = r.row; coming = drop r.number r.table.now } };
}

impl<'a> TableRows<'a> {
    /// All rows of a table. None is at hand yet.
    pub fn open(table: &'a Table) -> TableRows<'a>
        ensures { result ≡ begins_at table.now }
    {
        TableRows {
            table,
            row: table.no_row(),
            number: 0,
        }
    }
}

impl<'a> RowSource for TableRows<'a> {
    ghost stand = { λ r. r };

    fn next(&mut self) -> Result<bool, TableFault> {
        if self.number >= self.table.rows() {
            self.row = self.table.no_row();
            return Ok(false);
        }
        self.row = self.table.row(self.number);
        self.row.is_text();
        self.number += 1;
        Ok(true)
    }

    fn cells(&self) -> usize {
        self.row.len()
    }

    fn cell(&self, j: usize) -> &str {
        self.row.cell(j)
    }
}

/// Takes the rows still to come, to find out whether each is text. A reader that refuses a row calls it first, since text that
/// isn't UTF-8 is refused before anything else of the same rows.
pub fn check_rest<S: RowSource>(source: &mut S) -> Result<(), TableFault>
    ensures { ChecksRest (S.stand source.old) result }
{
    'rows: while source.next()? {}
    Ok(())
}

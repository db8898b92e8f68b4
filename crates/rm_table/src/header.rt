// The header of a source of rows.

ghost use Rattle.std.specs.Prelude.{◌≡◌, ◌+◌, map};
ghost use Rattle.rm_table.specs.Source.{Stand};
ghost use Rattle.rm_table.specs.Header.{ReadsHeader, wrong_cell};

use crate::{RowSource, TableFault};

/// The field, counted from 1, of the first wanted cell that the row at hand lacks at its place.
pub fn wrong_cell<S: RowSource>(source: &S, wanted: &[&str]) -> Option<u64>
    ensures { result ≡ wrong_cell 0 (map (λ s. s.now) wanted.now) (S.stand source.now).row }
{
    for j in 0..wanted.len() {
        if source.cell(j) != wanted[j] {
            return Some(j as u64 + 1);
        }
    }
    None
}

/// Takes the first row, and answers the field, counted from 1, of the first wanted cell that it lacks at its place. Where there is
/// no row, all cells are lacking.
pub fn read_header<S: RowSource>(source: &mut S, wanted: &[&str]) -> Result<Option<u64>, TableFault>
    ensures { ReadsHeader (S.stand source.old) (map (λ s. s.now) wanted.now) (S.stand source.new) result }
{
    source.next()?;
    Ok(wrong_cell(source, wanted))
}

// The cells of a table, and refusals of a file.

ghost use Rattle.std.specs.Prelude.{◌≡◌, ◌+◌, ◌<◌, [], get_or, map};
ghost use Rattle.std.specs.List.{list_all};
ghost use Rattle.std.specs.Char.{is_ascii_digit};
ghost use Rattle.rm_base.specs.Codes.{refuse};
ghost use Rattle.rm_roster.specs.Cells.{is_number, wrong_cell};
ghost use Rattle.rm_roster.specs.Readings.{ReadsNumber};

use rm_base::{ReadFault, Refusal};
use rm_table::Table;

/// A refusal.
pub fn refused(code: u8, file: u8, a: u64, b: u64) -> ReadFault
    ensures { result ≡ ReadFault.Refused (refuse code file a b) }
{
    ReadFault::Refused(Refusal { code, file, a, b })
}

// Whether each byte is a digit.
fn all_digits(text: &[u8]) -> bool
    ensures { result ≡ list_all is_ascii_digit text.now }
{
    text.iter().all(|c| c.is_ascii_digit())
}

// Whether a text is a number: 1 to 9 digits.
fn is_number(text: &str) -> bool
    ensures { result ≡ is_number text.now }
{
    if text.len() < 1 || text.len() > 9 {
        return false;
    }
    all_digits(text.as_bytes())
}

/// The number of a text; None exactly where it is none.
pub fn number(text: &str) -> Option<u32>
    ensures { ReadsNumber text.now result }
{
    if !is_number(text) {
        return None;
    }
    match text.parse::<u32>() {
        Ok(n) => Some(n),
        Err(_) => None,
    }
}

// The cell of the header at a place; the empty text where there is none.
fn header_cell(table: &Table, j: usize) -> &str
    ensures { result.now ≡ get_or (get_or table.entry.now 0 []) j [] }
{
    if table.rows() == 0 {
        return "";
    }
    table.cell(0, j)
}

/// The field, counted from 1, of the first wanted cell that the header lacks.
pub fn wrong_cell(table: &Table, wanted: &[&str]) -> Option<u64>
    ensures { result ≡ wrong_cell 0 (map (λ s. s.now) wanted.now) (get_or table.now 0 []) }
{
    for j in 0..wanted.len() {
        if header_cell(table, j) != wanted[j] {
            return Some(j as u64 + 1);
        }
    }
    None
}

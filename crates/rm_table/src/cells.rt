// The cells of a record of CSV.

ghost use Rattle.std.specs.Prelude.{◌≡◌, ◌<◌, ◌≤◌, ◌-◌, List, [], length, map, get_or};
ghost use Rattle.std.specs.List.{prefix_len, suffix_len};
ghost use Rattle.csv.specs.Records.{fields_of};
ghost use Rattle.rm_table.specs.Rows.{cell_of, is_blank, row_len};

use csv::ByteRecord;

fn is_blank(b: u8) -> bool
    ensures { result ≡ is_blank b }
{
    b == b' ' || b == b'\t'
}

// How many blanks a field starts with.
fn front_len(field: &[u8]) -> usize
    ensures { result ≡ prefix_len is_blank field.now }
{
    let mut n = 0;
    while n < field.len() && is_blank(field[n]) {
        n += 1;
    }
    n
}

// Where the blanks at the end of a field start.
fn kept_len(field: &[u8]) -> usize
    ensures { result ≡ length field.now - suffix_len is_blank field.now }
{
    let mut n = field.len();
    while n > 0 && is_blank(field[n - 1]) {
        n -= 1;
    }
    n
}

// The cell of a field.
fn cell(field: &[u8]) -> &[u8]
    ensures { result.now ≡ cell_of field.entry.now }
{
    let first = front_len(field);
    let end = kept_len(field);
    if first < end {
        &field[first..end]
    } else {
        &field[..0]
    }
}

// The cell of a field of text.
pub fn trimmed(field: &str) -> &str
    ensures { result.now ≡ cell_of field.entry.now }
{
    let first = front_len(field.as_bytes());
    let end = kept_len(field.as_bytes());
    if first < end { &field[first..end] } else { "" }
}

// The cell of a record at a place.
pub fn cell_at(fields: &ByteRecord, i: usize) -> &[u8]
    requires { i < length (fields_of fields.now) }
    ensures { get_or (map cell_of (fields_of fields.entry.now)) i [] ≡ result.now }
{
    match fields.get(i) {
        Some(field) => cell(field),
        None => unreachable!(),
    }
}

// How many cells of a record come before the empty ones at its end.
pub fn cell_count(fields: &ByteRecord) -> usize
    ensures count { result ≡ row_len (map cell_of (fields_of fields.now)) }
    ensures within { result ≤ length (fields_of fields.now) }
{
    let mut n = fields.len();
    while n > 0 && cell_at(fields, n - 1).is_empty() {
        n -= 1;
    }
    n
}

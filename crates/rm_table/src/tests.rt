// Tables of small texts.

use crate::{RowSource, Rows, Table, TableFault, TableRows, check_rest, read_header};
use std::alloc::Global;

#[derive(Clone, Copy)]
struct Case {
    name: &'static str,
    bytes: &'static [u8],
    rows: &'static [&'static [&'static str]],
}

const CASES: [Case; 5] = [
    Case {
        name: "mark, line ends and empty cells",
        bytes: b"\xef\xbb\xbfhospital,target,,\r\n, ,\r\n\"St. Luke, East\",,1,\r\n",
        rows: &[&["hospital", "target"], &["St. Luke, East", "", "1"]],
    },
    Case {
        name: "blanks",
        bytes: b" a\t,\t b c ,  \n\n\" \"\n",
        rows: &[&["a", "b c"]],
    },
    Case {
        name: "no blanks",
        bytes: b"\"\n\",\xc2\xa0\n",
        rows: &[&["\n", "\u{a0}"]],
    },
    Case {
        name: "no row",
        bytes: b"\n,\n",
        rows: &[],
    },
    Case {
        name: "no end of line",
        bytes: b"a\n\"say \"\"so\"\"\",b",
        rows: &[&["a"], &["say \"so\"", "b"]],
    },
];

// Whether row i has these cells and none after them.
fn has_cells(table: &Table, i: usize, cells: &[&str]) -> bool {
    if i >= table.rows() {
        return false;
    }
    let row = table.row(i);
    for j in 0..cells.len() {
        if row.cell(j) != cells[j] || table.cell(i, j) != cells[j] {
            return false;
        }
    }
    row.len() == cells.len() && row.cell(cells.len()).is_empty()
}

fn holds(alloc: Global, case: &Case) -> bool {
    let Ok(table) = Table::read(alloc, case.bytes) else {
        return false;
    };
    for i in 0..case.rows.len() {
        if !has_cells(&table, i, case.rows[i]) {
            return false;
        }
    }
    table.rows() == case.rows.len()
}

#[test]
fn reads_rows(rt: HostRuntime) {
    for case in &CASES {
        let name = case.name;
        assert!(rt; holds(rt.alloc(), case), "{name}");
    }
}

// The row that is no text, if reading says so.
fn bad_row(alloc: Global, bytes: &[u8]) -> Option<u64> {
    match Table::read(alloc, bytes) {
        Err(TableFault::BadText(row)) => Some(row),
        Err(TableFault::NoMemory) => None,
        Ok(_) => None,
    }
}

#[test]
fn finds_bad_text(rt: HostRuntime) {
    let alloc = rt.alloc();
    assert!(rt; bad_row(alloc, b"\xff\n") == Some(0));
    assert!(rt; bad_row(alloc, b"a\n , \nb,,\xc3\n\xff\n") == Some(1));
    assert!(rt; bad_row(alloc, b"a,\xc3\xa9\n").is_none());
}

// A table of 10,000 rows of seven cells, each of one byte: more cells, and more bytes, than two bytes count.
fn large_table(alloc: Global) -> Option<Table> {
    let mut bytes = Vec::new(alloc);
    for _ in 0..10_000 {
        bytes.extend_from_slice(b"a,b,c,d,e,f,g\n").ok()?;
    }
    Table::read(alloc, &bytes).ok()
}

#[test]
fn reads_a_large_table(rt: HostRuntime) {
    let Some(table) = large_table(rt.alloc()) else {
        assert!(rt; false, "the table is read");
        return;
    };
    assert!(rt; table.rows() == 10_000);
    assert!(rt; has_cells(&table, 9_999, &["a", "b", "c", "d", "e", "f", "g"]));
}

// Whether the row at hand has just these cells.
fn is_at<S: RowSource>(source: &S, cells: &[&str]) -> bool {
    for j in 0..cells.len() {
        if source.cell(j) != cells[j] {
            return false;
        }
    }
    source.cells() == cells.len() && source.cell(cells.len()).is_empty()
}

// Whether a source gives just these rows, and then no more.
fn gives<S: RowSource>(source: &mut S, rows: &[&[&str]]) -> bool {
    for i in 0..rows.len() {
        let Ok(true) = source.next() else {
            return false;
        };
        if !is_at(source, rows[i]) {
            return false;
        }
    }
    source.next() == Ok(false) && source.next() == Ok(false)
}

fn gives_both(alloc: Global, case: &Case) -> bool {
    let Ok(table) = Table::read(alloc, case.bytes) else {
        return false;
    };
    gives(&mut Rows::open(alloc, case.bytes), case.rows)
        && gives(&mut TableRows::open(&table), case.rows)
}

#[test]
fn gives_rows_one_at_a_time(rt: HostRuntime) {
    for case in &CASES {
        let name = case.name;
        assert!(rt; gives_both(rt.alloc(), case), "{name}");
    }
}

#[test]
fn stops_at_bad_text(rt: HostRuntime) {
    let mut rows = Rows::open(rt.alloc(), b"a\n , \nb,,\xc3\nc\n");
    assert!(rt; rows.next() == Ok(true));
    assert!(rt; rows.next() == Err(TableFault::BadText(1)));
    assert!(rt; rows.next() == Ok(false));
}

#[test]
fn reads_the_header(rt: HostRuntime) {
    let alloc = rt.alloc();
    let mut rows = Rows::open(alloc, b"a, b \nc\n");
    assert!(rt; read_header(&mut rows, &["a", "b"]) == Ok(None));
    assert!(rt; rows.next() == Ok(true) && is_at(&rows, &["c"]));
    let mut rows = Rows::open(alloc, b"a,b\n\xff\n");
    assert!(rt; read_header(&mut rows, &["a", "c"]) == Ok(Some(2)));
    assert!(rt; check_rest(&mut rows) == Err(TableFault::BadText(1)));
    assert!(rt; read_header(&mut Rows::open(alloc, b""), &["a"]) == Ok(Some(1)));
}

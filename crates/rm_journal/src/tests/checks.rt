// What is said of journals of a folder's offers.

ghost use Rattle.std.specs.Prelude.{◌≡◌, ◌<◌, All, IsTrue};

use crate::{Check, Entry, Outcome, verify};
use rm_base::NoMemory;
use rm_case::Case;
use rm_sample_folders::{ONE_SEAT, case_of};
use std::alloc::Global;
use std::test::Fail;

// A journal, and what is to be said of it.
#[derive(Clone, Copy)]
struct Row {
    name: &'static str,
    entries: &'static [Entry],
    check: Check,
}

const ROWS: [Row; 6] = [
    Row {
        name: "A first",
        entries: &[
            Entry {
                x: 2,
                outcome: Outcome::Kept,
            },
            Entry {
                x: 1,
                outcome: Outcome::Swapped(2),
            },
            Entry {
                x: 0,
                outcome: Outcome::Swapped(1),
            },
        ],
        check: Check::Accepted,
    },
    Row {
        name: "B first",
        entries: &[
            Entry {
                x: 1,
                outcome: Outcome::Kept,
            },
            Entry {
                x: 2,
                outcome: Outcome::Refused,
            },
            Entry {
                x: 0,
                outcome: Outcome::Swapped(1),
            },
        ],
        check: Check::Accepted,
    },
    Row {
        name: "A can still offer",
        entries: &[
            Entry {
                x: 2,
                outcome: Outcome::Kept,
            },
            Entry {
                x: 1,
                outcome: Outcome::Swapped(2),
            },
        ],
        check: Check::Unclosed(0),
    },
    Row {
        name: "no offers",
        entries: &[],
        check: Check::Unclosed(0),
    },
    Row {
        name: "B puts out A",
        entries: &[
            Entry {
                x: 2,
                outcome: Outcome::Kept,
            },
            Entry {
                x: 1,
                outcome: Outcome::Kept,
            },
        ],
        check: Check::WrongAnswer(2),
    },
    Row {
        name: "A offers his second choice first",
        entries: &[Entry {
            x: 0,
            outcome: Outcome::Kept,
        }],
        check: Check::NotNext(1),
    },
];

// Whether each entry is of a contract below n.
fn are_below(n: u32, entries: &[Entry]) -> bool
    ensures { IsTrue result → All (λ e. e.x < n) entries.now }
{
    for i in 0..entries.len() {
        let entry = entries[i];
        if entry.x >= n {
            return false;
        }
    }
    true
}

// Whether the check of a row's journal on a case says what is wanted.
fn case_checks(alloc: Global, case: &Case, row: &Row) -> Result<bool, NoMemory> {
    if !are_below(case.board().contracts(), row.entries) {
        return Ok(false);
    }
    let check = verify(alloc, case, row.entries)?;
    Ok(check == row.check)
}

// The same on the folder. False where memory is wanting.
fn holds(alloc: Global, row: &Row) -> bool {
    match case_of(alloc, &ONE_SEAT) {
        Ok(case) => matches!(case_checks(alloc, &case, row), Ok(true)),
        Err(_) => false,
    }
}

#[test]
fn checks_rows(rt: HostRuntime) -> Result<(), Fail> {
    for row in &ROWS {
        let name = row.name;
        assert!(rt; holds(rt.alloc(), row), "{name}");
    }
    Ok(())
}

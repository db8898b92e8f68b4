// The turns of runs in several orders, and the places in the end.

ghost use Rattle.std.specs.Prelude.{◌≡◌, ◌<◌, All, IsTrue};

use crate::{Played, flexible_run};
use rm_base::NoMemory;
use rm_case::{Case, Places};
use rm_choice::Outcome;
use rm_policy::Kind;
use rm_rounds::Turn;
use rm_sample_folders::{Files, ONE_SEAT, TARGET_OF_TWO, case_of};
use std::alloc::Global;
use std::test::Fail;

// A folder, an order of its doctors, their turns, and the place of each doctor in the end.
#[derive(Clone, Copy)]
struct Row {
    name: &'static str,
    files: &'static Files,
    order: &'static [u32],
    turns: &'static [Turn],
    places: &'static [Option<u32>],
}

const ROWS: [Row; 7] = [
    Row {
        name: "A first",
        files: &ONE_SEAT,
        order: &[0, 1, 0, 1],
        turns: &[
            Turn::Moved {
                x: 2,
                outcome: Outcome::Kept,
            },
            Turn::Moved {
                x: 1,
                outcome: Outcome::Swapped(2),
            },
            Turn::Moved {
                x: 0,
                outcome: Outcome::Swapped(1),
            },
            Turn::Done,
        ],
        places: &[Some(0), None],
    },
    Row {
        name: "B first",
        files: &ONE_SEAT,
        order: &[1, 0, 0, 0],
        turns: &[
            Turn::Moved {
                x: 1,
                outcome: Outcome::Kept,
            },
            Turn::Moved {
                x: 2,
                outcome: Outcome::Refused,
            },
            Turn::Moved {
                x: 0,
                outcome: Outcome::Swapped(1),
            },
            Turn::Idle,
        ],
        places: &[Some(0), None],
    },
    Row {
        name: "no order",
        files: &ONE_SEAT,
        order: &[],
        turns: &[],
        places: &[Some(0), None],
    },
    Row {
        name: "a hospital's target puts out who came by a turn",
        files: &TARGET_OF_TWO,
        order: &[0, 3, 1, 4, 1, 2, 5, 0],
        turns: &[
            Turn::Moved {
                x: 0,
                outcome: Outcome::Kept,
            },
            Turn::Moved {
                x: 3,
                outcome: Outcome::Kept,
            },
            Turn::Moved {
                x: 1,
                outcome: Outcome::Kept,
            },
            Turn::Moved {
                x: 4,
                outcome: Outcome::Swapped(1),
            },
            Turn::Done,
            Turn::Moved {
                x: 2,
                outcome: Outcome::Refused,
            },
            Turn::Moved {
                x: 5,
                outcome: Outcome::Refused,
            },
            Turn::Idle,
        ],
        places: &[Some(0), None, None, Some(1), Some(1), None],
    },
    Row {
        name: "no order, with a target",
        files: &TARGET_OF_TWO,
        order: &[],
        turns: &[],
        places: &[Some(0), None, None, Some(1), Some(1), None],
    },
    Row {
        name: "ascending, with a target",
        files: &TARGET_OF_TWO,
        order: &[0, 1, 2, 3, 4, 5],
        turns: &[
            Turn::Moved {
                x: 0,
                outcome: Outcome::Kept,
            },
            Turn::Moved {
                x: 1,
                outcome: Outcome::Kept,
            },
            Turn::Moved {
                x: 2,
                outcome: Outcome::Kept,
            },
            Turn::Moved {
                x: 3,
                outcome: Outcome::Swapped(2),
            },
            Turn::Moved {
                x: 4,
                outcome: Outcome::Swapped(1),
            },
            Turn::Moved {
                x: 5,
                outcome: Outcome::Refused,
            },
        ],
        places: &[Some(0), None, None, Some(1), Some(1), None],
    },
    Row {
        name: "descending, with a target",
        files: &TARGET_OF_TWO,
        order: &[5, 4, 3, 2, 1, 0],
        turns: &[
            Turn::Moved {
                x: 5,
                outcome: Outcome::Kept,
            },
            Turn::Moved {
                x: 4,
                outcome: Outcome::Kept,
            },
            Turn::Moved {
                x: 3,
                outcome: Outcome::Kept,
            },
            Turn::Moved {
                x: 2,
                outcome: Outcome::Swapped(5),
            },
            Turn::Moved {
                x: 1,
                outcome: Outcome::Swapped(2),
            },
            Turn::Moved {
                x: 0,
                outcome: Outcome::Swapped(1),
            },
        ],
        places: &[Some(0), None, None, Some(1), Some(1), None],
    },
];

// Whether each number of an order is below n.
fn are_below(n: u32, order: &[u32]) -> bool
    ensures { IsTrue result → All (λ d. d < n) order.now }
{
    for i in 0..order.len() {
        if order[i] >= n {
            return false;
        }
    }
    true
}

// Whether these are the places.
fn are_places(places: &Places, wanted: &[Option<u32>]) -> bool {
    if places.len() as usize != wanted.len() {
        return false;
    }
    for d in 0..places.len() {
        if places.get(d) != wanted[d as usize] {
            return false;
        }
    }
    true
}

// Whether a run did what is wanted.
fn is_played(played: &Played, row: &Row) -> bool {
    played.turns.as_slice() == row.turns && are_places(&played.places, row.places)
}

// Whether the run of a row on its case does what is wanted.
fn case_plays(alloc: Global, case: &Case, row: &Row) -> Result<bool, NoMemory> {
    if case.policy().kind() != Kind::Flexible
        || !are_below(case.roster().doctors().len(), row.order)
    {
        return Ok(false);
    }
    let played = flexible_run(alloc, case, row.order)?;
    Ok(is_played(&played, row))
}

// The same on its folder. False where memory is wanting.
fn holds(alloc: Global, row: &Row) -> bool {
    match case_of(alloc, row.files) {
        Ok(case) => matches!(case_plays(alloc, &case, row), Ok(true)),
        Err(_) => false,
    }
}

#[test]
fn plays_rows(rt: HostRuntime) -> Result<(), Fail> {
    for row in &ROWS {
        let name = row.name;
        assert!(rt; holds(rt.alloc(), row), "{name}");
    }
    Ok(())
}

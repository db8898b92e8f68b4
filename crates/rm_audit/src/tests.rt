// What the reading of a placement answers, and what is found of placements.

use crate::{Finding, audit, read_placement};
use rm_base::{NoMemory, ReadFault};
use rm_case::{Case, LoadFault};
use rm_outside::memory::SteadyShelf;
use rm_table::Table;
use std::alloc::Global;
use std::test::Fail;

// The files of a folder F: A lists H2 and H1, and B lists H1. H2 ranks A alone.
static FILES: [(&str, &[u8]); 3] = [
    (
        "F/hospitals.csv",
        b"hospital,prefecture,capacity,target\nH1,P,1,0\nH2,P,1,0\n",
    ),
    ("F/doctors.csv", b"doctor,choices\nA,H2,H1\nB,H1\n"),
    ("F/ranks.csv", b"hospital,doctors\nH1,A,B\nH2,A\n"),
];

// A shelf with these files.
fn shelf_of(alloc: Global) -> Result<SteadyShelf, NoMemory> {
    let mut shelf = SteadyShelf::new(alloc);
    for (name, bytes) in FILES {
        shelf.add(name, bytes)?;
    }
    Ok(shelf)
}

// The case of the folder.
fn case_of(alloc: Global) -> Result<Case, LoadFault> {
    let Ok(mut shelf) = shelf_of(alloc) else {
        return Err(LoadFault::NoMemory);
    };
    match Case::load(alloc, &mut shelf, "F") {
        Ok(case) => Ok(case),
        Err(fault) => Err(fault),
    }
}

// The code and the numbers of the first refusal of a file, or code 0 with the doctors and the place of the first one.
fn answer(alloc: Global, case: &Case, bytes: &[u8]) -> Option<(u8, u64, u64)> {
    let Ok(table) = Table::read(alloc, bytes) else {
        return None;
    };
    match read_placement(alloc, case, &table) {
        Ok(places) => match places.len() {
            2 => Some((0, 2, places.get(0).unwrap_or(9) as u64)),
            doctors => Some((0, doctors as u64, 9)),
        },
        Err(ReadFault::Refused(refusal)) => Some((refusal.code, refusal.a, refusal.b)),
        Err(ReadFault::NoMemory) => None,
    }
}

// Whether each file is answered as it should be.
fn are_answered(alloc: Global, case: &Case) -> bool {
    answer(alloc, case, b"doctor,hospital\nB,\nA,H2\n") == Some((0, 2, 1))
        && answer(alloc, case, b"doctor\nA,H1\n") == Some((13, 0, 2))
        && answer(alloc, case, b"doctor,hospital\nB,\nC,\n") == Some((60, 2, 1))
        && answer(alloc, case, b"doctor,hospital\nA,\nA,H9\n") == Some((63, 2, 1))
        && answer(alloc, case, b"doctor,hospital\nA,H9\n") == Some((61, 1, 2))
        && answer(alloc, case, b"doctor,hospital\nB,H2\n") == Some((62, 1, 2))
        && answer(alloc, case, b"doctor,hospital\nB,H1\n") == Some((64, 1, 0))
}

// Whether they are, of the folder's case.
fn all_hold(alloc: Global) -> bool {
    match case_of(alloc) {
        Ok(case) => are_answered(alloc, &case),
        Err(_) => false,
    }
}

#[test]
fn reads_placements(rt: HostRuntime) -> Result<(), Fail> {
    assert!(rt; all_hold(rt.alloc()));
    Ok(())
}

// A folder, a file of a placement, and the finding on it.
#[derive(Clone, Copy)]
struct Row {
    hospitals: &'static [u8],
    doctors: &'static [u8],
    ranks: &'static [u8],
    policy: &'static [u8],
    placement: &'static [u8],
    finding: Finding,
}

// In the first two rows a prefecture has one seat, which its order gives to H1 first, and the contracts are 0 of A and H1, 1 of B and
// H1, and 2 of A and H2. In the third its cap is 0, and it is node 1. In the last contract 0 is of B, and the second seat costs 1.
const ROWS: [Row; 4] = [
    Row {
        hospitals: b"hospital,prefecture,capacity,target\nH1,P,1,0\nH2,P,1,0\n",
        doctors: b"doctor,choices\nA,H2,H1\nB,H1\n",
        ranks: b"hospital,doctors\nH1,A,B\nH2,A\n",
        policy: b"version = 1\nkind = \"flexible\"\n[[prefecture]]\nname = \"P\"\ncap = 1\norder = [\"H1\", \"H2\"]\n",
        placement: b"doctor,hospital\nA,H2\nB,\n",
        finding: Finding::Blocks(1),
    },
    Row {
        hospitals: b"hospital,prefecture,capacity,target\nH1,P,1,0\nH2,P,1,0\n",
        doctors: b"doctor,choices\nA,H2,H1\nB,H1\n",
        ranks: b"hospital,doctors\nH1,A,B\nH2,A\n",
        policy: b"version = 1\nkind = \"flexible\"\n[[prefecture]]\nname = \"P\"\ncap = 1\norder = [\"H1\", \"H2\"]\n",
        placement: b"doctor,hospital\nA,H1\nB,\n",
        finding: Finding::Stable,
    },
    Row {
        hospitals: b"hospital,prefecture,capacity,target\nH1,P,1,0\n",
        doctors: b"doctor,choices\nA,H1\n",
        ranks: b"hospital,doctors\nH1,A\n",
        policy: b"version = 1\nkind = \"steps\"\n[[prefecture]]\nname = \"P\"\ncap = 0\n",
        placement: b"doctor,hospital\nA,H1\n",
        finding: Finding::OverCap(1),
    },
    Row {
        hospitals: b"hospital,prefecture,capacity,target\nH1,P,2,0\n",
        doctors: b"doctor,choices\nA,H1\nB,H1\n",
        ranks: b"hospital,doctors\nH1,B,A\n",
        policy: b"version = 1\nkind = \"steps\"\n[[hospital]]\nname = \"H1\"\nsteps = [[0, 1], [-1, 1]]\n",
        placement: b"doctor,hospital\nA,H1\nB,H1\n",
        finding: Finding::Unwanted(0),
    },
];

// A shelf with the files of a row.
fn shelf_of_row(alloc: Global, row: &Row) -> Result<SteadyShelf, NoMemory> {
    let mut shelf = SteadyShelf::new(alloc);
    shelf.add("F/hospitals.csv", row.hospitals)?;
    shelf.add("F/doctors.csv", row.doctors)?;
    shelf.add("F/ranks.csv", row.ranks)?;
    shelf.add("F/policy.toml", row.policy)?;
    Ok(shelf)
}

// The case of a row.
fn case_of_row(alloc: Global, row: &Row) -> Result<Case, LoadFault> {
    let Ok(mut shelf) = shelf_of_row(alloc, row) else {
        return Err(LoadFault::NoMemory);
    };
    match Case::load(alloc, &mut shelf, "F") {
        Ok(case) => Ok(case),
        Err(fault) => Err(fault),
    }
}

// What is found of a file of a placement.
fn found(alloc: Global, case: &Case, placement: &[u8]) -> Option<Finding> {
    let Ok(table) = Table::read(alloc, placement) else {
        return None;
    };
    let Ok(places) = read_placement(alloc, case, &table) else {
        return None;
    };
    match audit(alloc, case, &places) {
        Ok(finding) => Some(finding),
        Err(_) => None,
    }
}

// Whether the finding of a row is found.
fn is_found(alloc: Global, row: &Row) -> bool {
    match case_of_row(alloc, row) {
        Ok(case) => found(alloc, &case, row.placement) == Some(row.finding),
        Err(_) => false,
    }
}

#[test]
fn finds_what_is_to_be_said(rt: HostRuntime) -> Result<(), Fail> {
    for row in &ROWS {
        assert!(rt; is_found(rt.alloc(), row));
    }
    Ok(())
}

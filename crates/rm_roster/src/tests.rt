// Rosters of small files, and their refusals.

use crate::Roster;
use rm_base::{ReadFault, Refusal};
use rm_table::Table;
use std::alloc::Global;

const HOSPITALS: &[u8] = b"hospital,prefecture,capacity,target\nH1,P,3,1\nH2,Q,1,\n";

const DOCTORS: &[u8] = b"doctor,choices\nA,H1,,H2\nB\n";

const RANKS: &[u8] = b"hospital,doctors\nH2,A\n";

// Reads three files; a table that is not read counts as want of memory.
fn read(
    alloc: Global,
    hospitals: &[u8],
    doctors: &[u8],
    ranks: &[u8],
) -> Result<Roster, ReadFault> {
    let Ok(hospitals) = Table::read(alloc, hospitals) else {
        return Err(ReadFault::NoMemory);
    };
    let Ok(doctors) = Table::read(alloc, doctors) else {
        return Err(ReadFault::NoMemory);
    };
    let Ok(ranks) = Table::read(alloc, ranks) else {
        return Err(ReadFault::NoMemory);
    };
    Roster::read(alloc, &hospitals, &doctors, &ranks)
}

// Whether the roster says what the three files say.
fn is_as_said(roster: &Roster) -> bool {
    if roster.hospitals().len() != 2 || roster.prefectures().len() != 2 {
        return false;
    }
    if roster.doctors().find("B") != Some(1) || roster.prefectures().find("Q") != Some(1) {
        return false;
    }
    if roster.prefecture_of(1) != 1 || roster.capacity(0) != 3 || roster.target(0) != 1 {
        return false;
    }
    if roster.lists().len() != 2 || roster.ranks().len() != 2 {
        return false;
    }
    roster.lists().list(0) == [0, 1].as_slice()
        && roster.ranks().list(0).is_empty()
        && roster.ranks().list(1) == [0].as_slice()
}

#[test]
fn reads_a_roster(rt: HostRuntime) {
    let said = match read(rt.alloc(), HOSPITALS, DOCTORS, RANKS) {
        Ok(roster) => is_as_said(&roster),
        Err(_) => false,
    };
    assert!(rt; said);
}

#[derive(Clone, Copy)]
struct Case {
    name: &'static str,
    hospitals: &'static [u8],
    doctors: &'static [u8],
    ranks: &'static [u8],
    refusal: Refusal,
}

const CASES: [Case; 8] = [
    Case {
        name: "target above capacity",
        hospitals: b"hospital,prefecture,capacity,target\nH1,P,3,1\nH2,Q,1,2\n",
        doctors: b"",
        ranks: b"",
        refusal: Refusal {
            code: 18,
            file: 1,
            a: 2,
            b: 4,
        },
    },
    Case {
        name: "bad number",
        hospitals: b"hospital,prefecture,capacity,target\nH1,P,3,1\nH2,Q,1234567890\n",
        doctors: DOCTORS,
        ranks: RANKS,
        refusal: Refusal {
            code: 16,
            file: 1,
            a: 2,
            b: 3,
        },
    },
    Case {
        name: "header",
        hospitals: b"hospital,prefecture,Capacity,target\n",
        doctors: DOCTORS,
        ranks: RANKS,
        refusal: Refusal {
            code: 13,
            file: 1,
            a: 0,
            b: 3,
        },
    },
    Case {
        name: "unknown hospital",
        hospitals: HOSPITALS,
        doctors: b"doctor\nA,H1,H9\n",
        ranks: RANKS,
        refusal: Refusal {
            code: 19,
            file: 2,
            a: 1,
            b: 3,
        },
    },
    Case {
        name: "repeated doctor",
        hospitals: HOSPITALS,
        doctors: b"doctor\nA,H1\nA,H1\n",
        ranks: RANKS,
        refusal: Refusal {
            code: 15,
            file: 2,
            a: 2,
            b: 1,
        },
    },
    Case {
        name: "repeated choice past an empty field",
        hospitals: HOSPITALS,
        doctors: b"doctor\nA,H1,,H1\n",
        ranks: RANKS,
        refusal: Refusal {
            code: 21,
            file: 2,
            a: 1,
            b: 4,
        },
    },
    Case {
        name: "repeated rank",
        hospitals: HOSPITALS,
        doctors: DOCTORS,
        ranks: b"hospital\nH1,A,A\n",
        refusal: Refusal {
            code: 21,
            file: 3,
            a: 1,
            b: 3,
        },
    },
    Case {
        name: "repeated row",
        hospitals: HOSPITALS,
        doctors: DOCTORS,
        ranks: b"hospital\nH2,A\nH1,B\nH2,B\n",
        refusal: Refusal {
            code: 22,
            file: 3,
            a: 3,
            b: 1,
        },
    },
];

// Whether the files are refused as wanted.
fn is_refused(alloc: Global, case: &Case) -> bool {
    match read(alloc, case.hospitals, case.doctors, case.ranks) {
        Ok(_) => false,
        Err(ReadFault::NoMemory) => false,
        Err(ReadFault::Refused(refusal)) => refusal == case.refusal,
    }
}

#[test]
fn refuses_files(rt: HostRuntime) {
    for case in &CASES {
        let name = case.name;
        assert!(rt; is_refused(rt.alloc(), case), "{name}");
    }
}

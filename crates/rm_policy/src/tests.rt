// Policies of small texts, and their refusals.

use crate::{Kind, Policy, Ties};
use rm_base::{ReadFault, Refusal};
use rm_roster::Roster;
use rm_table::Table;
use std::alloc::Global;

const HOSPITALS: &[u8] = b"hospital,prefecture,capacity,target\nH1,P,3,1\nH2,Q,1,\n";

const DOCTORS: &[u8] = b"doctor,choices\nA,H1,H2\n";

const RANKS: &[u8] = b"hospital,doctors\nH2,A\n";

const POLICY: &[u8] =
    b"version = 1\nkind = \"steps\"\nties = \"listed\"\nlisted = [[\"A\", \"H2\"]]\n[[prefecture]]\nname = \"P\"\ncap = 2\n[[group]]\nname = \"g\"\nhospitals = [\"H2\"]\nprefectures = [\"P\"]\nsteps = [[5, 2, 1]]\n[[hospital]]\nname = \"H2\"\nsteps = [[7, 1]]\n";

// Reads three tables; one that is not read counts as want of memory.
fn roster(alloc: Global) -> Result<Roster, ReadFault> {
    let Ok(hospitals) = Table::read(alloc, HOSPITALS) else {
        return Err(ReadFault::NoMemory);
    };
    let Ok(doctors) = Table::read(alloc, DOCTORS) else {
        return Err(ReadFault::NoMemory);
    };
    let Ok(ranks) = Table::read(alloc, RANKS) else {
        return Err(ReadFault::NoMemory);
    };
    Roster::read(alloc, &hospitals, &doctors, &ranks)
}

// Reads a policy of that roster.
fn read(alloc: Global, text: &[u8]) -> Result<Policy, ReadFault> {
    let roster = match roster(alloc) {
        Ok(roster) => roster,
        Err(fault) => return Err(fault),
    };
    match Policy::read(alloc, text, &roster) {
        Ok(policy) => Ok(policy),
        Err(fault) => Err(fault),
    }
}

// Whether the policy says what the text says.
fn is_as_said(policy: &Policy) -> bool {
    if policy.kind() != Kind::Steps || policy.ties() != Ties::Listed {
        return false;
    }
    if policy.prefecture_entries() != 1 || policy.listed().len() != 1 {
        return false;
    }
    if policy.hospital_steps(0).is_some() {
        return false;
    }
    let groups = policy.groups();
    groups.len() == 2
        && groups[0].as_slice() == [0].as_slice()
        && groups[1].as_slice() == [0, 1].as_slice()
}

#[test]
fn reads_a_policy(rt: HostRuntime) {
    let said = match read(rt.alloc(), POLICY) {
        Ok(policy) => is_as_said(&policy),
        Err(_) => false,
    };
    assert!(rt; said);
}

#[derive(Clone, Copy)]
struct Case {
    name: &'static str,
    text: &'static [u8],
    refusal: Refusal,
}

const CASES: [Case; 4] = [
    Case {
        name: "no TOML",
        text: b"version",
        refusal: Refusal {
            code: 30,
            file: 4,
            a: 0,
            b: 0,
        },
    },
    Case {
        name: "no version",
        text: b"",
        refusal: Refusal {
            code: 32,
            file: 4,
            a: 0,
            b: 1,
        },
    },
    Case {
        name: "rising steps",
        text: b"version = 1\nkind = \"steps\"\n[[group]]\nname = \"g\"\ncap = 1\n[[hospital]]\nname = \"H1\"\nsteps = [[3, 2], [5, 1]]\n",
        refusal: Refusal {
            code: 37,
            file: 4,
            a: 2,
            b: 2,
        },
    },
    Case {
        name: "targets above cap",
        text: b"version = 1\nkind = \"flexible\"\n[[prefecture]]\nname = \"P\"\ncap = 0\n",
        refusal: Refusal {
            code: 42,
            file: 4,
            a: 1,
            b: 1,
        },
    },
];

// Whether a text is refused so.
fn is_refused(alloc: Global, case: &Case) -> bool {
    match read(alloc, case.text) {
        Ok(_) => false,
        Err(ReadFault::NoMemory) => false,
        Err(ReadFault::Refused(refusal)) => refusal == case.refusal,
    }
}

#[test]
fn refuses(rt: HostRuntime) {
    for case in &CASES {
        let name = case.name;
        assert!(rt; is_refused(rt.alloc(), case), "{name}");
    }
}

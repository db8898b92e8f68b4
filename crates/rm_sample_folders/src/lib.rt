//! Folders in memory, for the tests of the crates above.
#![tactic(auto)]

use rm_base::NoMemory;
use rm_case::{Case, LoadFault};
use rm_outside::memory::SteadyShelf;
use std::alloc::Global;

/// The names and the bytes of the files of a folder F.
pub type Files = [(&'static str, &'static [u8]); 4];

/// A prefecture has one seat and an order with H1 first. The doctors are 0 and 1 for A and B, and the contracts 0 of A and H1,
/// 1 of B and H1, and 2 of A and H2.
pub const ONE_SEAT: Files = [
    (
        "F/hospitals.csv",
        b"hospital,prefecture,capacity,target\nH1,P,1,0\nH2,P,1,0\n",
    ),
    ("F/doctors.csv", b"doctor,choices\nA,H2,H1\nB,H1\n"),
    ("F/ranks.csv", b"hospital,doctors\nH1,A,B\nH2,A\n"),
    (
        "F/policy.toml",
        b"version = 1\nkind = \"flexible\"\n[[prefecture]]\nname = \"P\"\ncap = 1\norder = [\"H1\", \"H2\"]\n",
    ),
];

/// A prefecture has three seats, an order with H1 first, and a target of 2 for H2. Each doctor has one contract of his number: 0
/// to 2 at H1, and 3 to 5 at H2.
pub const TARGET_OF_TWO: Files = [
    (
        "F/hospitals.csv",
        b"hospital,prefecture,capacity,target\nH1,P,3,0\nH2,P,3,2\n",
    ),
    (
        "F/doctors.csv",
        b"doctor,choices\nA1,H1\nA2,H1\nA3,H1\nB1,H2\nB2,H2\nB3,H2\n",
    ),
    (
        "F/ranks.csv",
        b"hospital,doctors\nH1,A1,A2,A3\nH2,B1,B2,B3\n",
    ),
    (
        "F/policy.toml",
        b"version = 1\nkind = \"flexible\"\n[[prefecture]]\nname = \"P\"\ncap = 3\norder = [\"H1\", \"H2\"]\n",
    ),
];

// A shelf with these files.
fn shelf_of(alloc: Global, files: &Files) -> Result<SteadyShelf, NoMemory> {
    let mut shelf = SteadyShelf::new(alloc);
    for (name, bytes) in *files {
        shelf.add(name, bytes)?;
    }
    Ok(shelf)
}

/// The case of a folder of these files.
pub fn case_of(alloc: Global, files: &Files) -> Result<Case, LoadFault> {
    let Ok(mut shelf) = shelf_of(alloc, files) else {
        return Err(LoadFault::NoMemory);
    };
    match Case::load(alloc, &mut shelf, "F") {
        Ok(case) => Ok(case),
        Err(fault) => Err(fault),
    }
}

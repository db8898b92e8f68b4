// A folder in memory.

use crate::{Case, LoadFault};
use rm_base::NoMemory;
use rm_outside::memory::SteadyShelf;
use std::alloc::Global;

// The files of a folder F, whose prefecture has one seat and an order with H1 first, a file of offers, and a list. The contracts are
// 0 of A and H1, 1 of B and H1, and 2 of A and H2.
static FILES: [(&str, &[u8]); 6] = [
    (
        "F/hospitals.csv",
        b"hospital,prefecture,capacity,target\nH1,P,1,0\nH2,P,1,0\n",
    ),
    ("F/doctors.csv", b"doctor,choices\nA,H2,H1\nB,H1\n"),
    ("F/ranks.csv", b"hospital,doctors\nH1,A,B\nH2,A\n"),
    (
        "F/policy.toml",
        b"version = 1\nkind = \"flexible\"\n[[prefecture]]\nname = \"P\"\ncap = 1\norder = [\"H1\", \"H2\"]\n",
    ),
    ("offers.csv", b"doctor,hospital\nA,H2\nB,H1\n"),
    ("list.csv", b"hospital\nH2\n"),
];

/// A shelf with these files.
pub fn shelf_of(alloc: Global) -> Result<SteadyShelf, NoMemory> {
    let mut shelf = SteadyShelf::new(alloc);
    for (name, bytes) in FILES {
        shelf.add(name, bytes)?;
    }
    Ok(shelf)
}

/// The case of the folder.
pub fn case_of(alloc: Global) -> Result<Case, LoadFault> {
    let Ok(mut shelf) = shelf_of(alloc) else {
        return Err(LoadFault::NoMemory);
    };
    match Case::load(alloc, &mut shelf, "F") {
        Ok(case) => Ok(case),
        Err(fault) => Err(fault),
    }
}

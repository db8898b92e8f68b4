//! The files of a generated nation are accepted. The functions have no code: each carries a theorem for the crates that compute.
#![tactic(auto)]

ghost use Rattle.rm_nation_laws.specs.Document.{IsPrinted, IsReadBack, IsShort, OfCaps};
ghost use Rattle.rm_nation_laws.specs.Policy.{GroupsPass, PolicyPasses, RosterSuits};
ghost use Rattle.rm_nation_laws.specs.Seats.{DrawsSeats, HospitalsPass, OfSeats};

/// The text of a nation's policy is the one that `toml` prints of a table with its entries, and it is read back as that table.
pub fn policies_are_read_back()
    ensures printed { OfCaps IsPrinted }
    ensures read { OfCaps IsReadBack }
    ensures short { OfCaps IsShort }
{}

/// A nation's policy passes its checks, whatever roster it is for that has the 47 prefectures and whose targets fit under the caps.
pub fn policies_pass()
    ensures { PolicyPasses }
{}

/// The file of a nation's hospitals is read back as its rows, and they pass their checks.
pub fn hospitals_pass()
    ensures { OfSeats HospitalsPass }
{}

/// The roster that these rows give, with any lists, suits the nation's policy: so the policy passes, and its groups make a tree.
pub fn rosters_suit()
    ensures suits { OfSeats RosterSuits }
    ensures groups { OfSeats GroupsPass }
{}

/// The seats of a generated nation, of any seed and any number of doctors, are such seats.
pub fn seats_are_drawn()
    ensures { DrawsSeats }
{}

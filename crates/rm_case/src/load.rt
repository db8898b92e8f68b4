// Loading a folder.

ghost use Rattle.std.specs.Prelude.{◌≡◌, ◌≤◌, Option, IfOk, IfSome};
ghost use Rattle.rm_base.specs.Checks.{first_of};
ghost use Rattle.rm_base.specs.Reading.{Reads};
ghost use Rattle.rm_base.specs.Text.{Text};
ghost use Rattle.rm_base.specs.declared.codes.TheConstants.{MOST_BYTES};
ghost use Rattle.rm_outside.specs.Outside.{Tells};
ghost use Rattle.rm_roster.specs.Roster.{IsRoster};
ghost use Rattle.rm_case.specs.Folder.{Folder, folder_of, folder_roster};
ghost use Rattle.rm_case.specs.Case.{case_of, folder_refusal, table_checks};
ghost use Rattle.rm_case.specs.Suits.{SuitsRoster};
ghost use Rattle.rm_case.specs.Fetching.{TellsFolder, TellsTables};
ghost use Rattle.rm_case.specs.Loading.{LoadFails, Loads};
ghost use Rattle.rm_case.specs.Parts.{ReadsFiles, ReadsPolicyFile};

use crate::case::Case;
use crate::fault::LoadFault;
use crate::folder::{FetchFailure, Fetches, fetch_folder};
use crate::table_file::read_table;
use rm_base::ReadFault;
use rm_base::codes::{DOCTORS_FILE, FILE_TOO_LONG, HOSPITALS_FILE, POLICY_FILE, RANKS_FILE};
use rm_outside::{Fetched, Shelf};
use rm_policy::Policy;
use rm_roster::Roster;
use std::alloc::Global;

/// What the files of a folder say.
#[derive(Drop)]
pub struct FolderData {
    pub roster: Roster,
    pub policy: Policy,
}

// The roster of three tables, or the first refusal of the tables.
fn read_roster(
    alloc: Global,
    hospitals: Fetched,
    doctors: Fetched,
    ranks: Fetched,
) -> Result<Roster, ReadFault>
    ensures reads { (f : Folder) → TellsTables f hospitals doctors ranks → Reads (first_of (table_checks f)) (folder_roster f) result }
    ensures roster { IfOk result IsRoster }
{
    let hospitals = match read_table(alloc, HOSPITALS_FILE, hospitals) {
        Ok(table) => table,
        Err(fault) => return Err(fault),
    };
    let doctors = match read_table(alloc, DOCTORS_FILE, doctors) {
        Ok(table) => table,
        Err(fault) => return Err(fault),
    };
    let ranks = match read_table(alloc, RANKS_FILE, ranks) {
        Ok(table) => table,
        Err(fault) => return Err(fault),
    };
    match Roster::read(alloc, &hospitals, &doctors, &ranks) {
        Ok(roster) => Ok(roster),
        Err(fault) => Err(fault),
    }
}

// The policy for a roster that a file gives, the plain one where the file is missing, or the file's first refusal.
fn read_policy(alloc: Global, fetched: Fetched, roster: &Roster) -> Result<Policy, ReadFault>
    requires { IsRoster roster.now }
    ensures reads { (told : Option Text) → Tells told MOST_BYTES fetched → ReadsPolicyFile roster.now told result }
    ensures fits { IfOk result (SuitsRoster roster.now) }
{
    match fetched {
        Fetched::Absent => Ok(Policy::plain(alloc)),
        Fetched::Long => Err(ReadFault::refused(FILE_TOO_LONG, POLICY_FILE, 0, 0)),
        Fetched::Bytes(bytes) => match Policy::read(alloc, &bytes, roster) {
            Ok(policy) => Ok(policy),
            Err(fault) => Err(fault),
        },
    }
}

// What a folder's files say, or the first refusal of the tables and of the policy file.
fn read_files(alloc: Global, fetches: Fetches) -> Result<FolderData, ReadFault>
    ensures reads { (f : Folder) → TellsFolder f fetches → ReadsFiles f result }
    ensures fits { IfOk result (λ told. SuitsRoster told.roster told.policy) }
{
    let roster = match read_roster(alloc, fetches.hospitals, fetches.doctors, fetches.ranks) {
        Ok(roster) => roster,
        Err(fault) => return Err(fault),
    };
    match read_policy(alloc, fetches.policy, &roster) {
        Ok(policy) => Ok(FolderData { roster, policy }),
        Err(fault) => Err(fault),
    }
}

// The case of a folder's files, or their first refusal.
fn read_case(alloc: Global, fetches: Fetches) -> Result<Case, ReadFault>
    ensures { (f : Folder) → TellsFolder f fetches → Reads (folder_refusal f) (case_of f) result }
{
    let told = match read_files(alloc, fetches) {
        Ok(told) => told,
        Err(fault) => return Err(fault),
    };
    match Case::build(alloc, told.roster, told.policy) {
        Ok(case) => Ok(case),
        Err(fault) => Err(fault),
    }
}

impl Case {
    /// Loads the folder F of this name. Its files are `F/hospitals.csv`, `F/doctors.csv`, `F/ranks.csv` and `F/policy.toml`,
    /// numbered 1 to 4, of at most 67,108,864 bytes each. They are fetched in this order, and then read. A missing
    /// `policy.toml` is no fault: the policy is then the plain one. `Refused` is the first refusal: first each table as a
    /// file, then what the tables say, then the policy, then its groups, and then its tie order. `Read` has the number of the
    /// file at which the shelf failed, and comes only where the shelf's count of faults rose in this call. `NoMemory` is want
    /// of memory.
    pub fn load<S: Shelf>(alloc: Global, shelf: &mut S, folder: &str) -> Result<Case, LoadFault>
        ensures loads { IfSome (S.files shelf.old) (λ fs. Loads (folder_of fs folder.now) result) }
        ensures fails { LoadFails (S.faults shelf.old) (S.faults shelf.new) (S.blame shelf.new) folder.now result }
        ensures files { S.files shelf.new ≡ S.files shelf.old }
        ensures later { S.faults shelf.old ≤ S.faults shelf.new }
    {
        match fetch_folder(alloc, shelf, folder) {
            Ok(fetches) => match read_case(alloc, fetches) {
                Ok(case) => Ok(case),
                Err(ReadFault::Refused(refusal)) => Err(LoadFault::Refused(refusal)),
                Err(ReadFault::NoMemory) => Err(LoadFault::NoMemory),
            },
            Err(FetchFailure::Read(file)) => Err(LoadFault::Read(file)),
            Err(FetchFailure::NoMemory) => Err(LoadFault::NoMemory),
        }
    }
}

// The files of a folder, fetched.

ghost use Rattle.std.specs.Prelude.{◌≡◌, ◌≤◌, ◌++◌, Some, IfOk, IfSome};
ghost use Rattle.std.specs.FinMap.{get};
ghost use Rattle.rm_outside.specs.Outside.{Tells};
ghost use Rattle.rm_case.specs.Folder.{file_in, folder_of};
ghost use Rattle.rm_case.specs.Fetching.{FetchFails, TellsFolder};

use rm_base::codes::{DOCTORS_FILE, HOSPITALS_FILE, MOST_BYTES, POLICY_FILE, RANKS_FILE};
use rm_outside::{FetchFault, Fetched, Shelf};
use std::alloc::Global;

/// Why the files of a folder were not fetched: the shelf failed at the file of this number, or memory is wanting.
#[derive(Clone, Copy, Debug, PartialEq, Eq)]
pub enum FetchFailure {
    Read(u8),
    NoMemory,
}

/// What the fetches of a folder's four files answered.
#[derive(Drop)]
pub struct Fetches {
    pub hospitals: Fetched,
    pub doctors: Fetched,
    pub ranks: Fetched,
    pub policy: Fetched,
}

// Fetches the file of this name in a folder, which has this number.
fn fetch_file<S: Shelf>(
    alloc: Global,
    shelf: &mut S,
    folder: &str,
    name: &str,
    file: u8,
) -> Result<Fetched, FetchFailure>
    requires { file_in folder.now file ≡ Some (folder.now ++ name.now) }
    ensures told { IfSome (S.files shelf.old) (λ fs. IfOk result (Tells (get fs (folder.now ++ name.now)) MOST_BYTES)) }
    ensures fails { FetchFails (S.faults shelf.old) (S.faults shelf.new) (S.blame shelf.new) folder.now result }
    ensures files { S.files shelf.new ≡ S.files shelf.old }
    ensures later { S.faults shelf.old ≤ S.faults shelf.new }
{
    let Ok(path) = format!(in alloc; "{folder}{name}") else {
        return Err(FetchFailure::NoMemory);
    };
    match shelf.fetch(alloc, &path, MOST_BYTES) {
        Ok(fetched) => Ok(fetched),
        Err(FetchFault::Failed) => Err(FetchFailure::Read(file)),
        Err(FetchFault::NoMemory) => Err(FetchFailure::NoMemory),
    }
}

/// Fetches the four files of a folder, in the order of their numbers. The first fault ends it.
pub fn fetch_folder<S: Shelf>(
    alloc: Global,
    shelf: &mut S,
    folder: &str,
) -> Result<Fetches, FetchFailure>
    ensures told { IfSome (S.files shelf.old) (λ fs. IfOk result (TellsFolder (folder_of fs folder.now))) }
    ensures fails { FetchFails (S.faults shelf.old) (S.faults shelf.new) (S.blame shelf.new) folder.now result }
    ensures files { S.files shelf.new ≡ S.files shelf.old }
    ensures later { S.faults shelf.old ≤ S.faults shelf.new }
{
    let hospitals = match fetch_file(alloc, shelf, folder, "/hospitals.csv", HOSPITALS_FILE) {
        Ok(fetched) => fetched,
        Err(failure) => return Err(failure),
    };
    let doctors = match fetch_file(alloc, shelf, folder, "/doctors.csv", DOCTORS_FILE) {
        Ok(fetched) => fetched,
        Err(failure) => return Err(failure),
    };
    let ranks = match fetch_file(alloc, shelf, folder, "/ranks.csv", RANKS_FILE) {
        Ok(fetched) => fetched,
        Err(failure) => return Err(failure),
    };
    let policy = match fetch_file(alloc, shelf, folder, "/policy.toml", POLICY_FILE) {
        Ok(fetched) => fetched,
        Err(failure) => return Err(failure),
    };
    Ok(Fetches {
        hospitals,
        doctors,
        ranks,
        policy,
    })
}

// The roster of a folder.

ghost use Rattle.std.specs.Prelude.{◌≡◌, length};
ghost use Rattle.std.specs.List.{sum_by};

use rm_base::codes::MOST_BYTES;
use rm_outside::folder::FolderShelf;
use rm_outside::{Fetched, Shelf};
use rm_roster::Roster;
use rm_table::Table;

// The table in a file of a folder.
fn table_in(rt: &HostRuntime, folder: &str, file: &str) -> Option<Table> {
    let Ok(path) = format!(in rt.alloc(); "{folder}/{file}") else {
        return None;
    };
    let mut shelf = FolderShelf::new(rt);
    let Ok(Fetched::Bytes(bytes)) = shelf.fetch(rt.alloc(), &path, MOST_BYTES) else {
        return None;
    };
    match Table::read(rt.alloc(), &bytes) {
        Ok(table) => Some(table),
        Err(_) => None,
    }
}

// The roster that the three tables of a folder tell.
pub fn roster_in(rt: &HostRuntime, folder: &str) -> Option<Roster> {
    let Some(hospitals) = table_in(rt, folder, "hospitals.csv") else {
        return None;
    };
    let Some(doctors) = table_in(rt, folder, "doctors.csv") else {
        return None;
    };
    let Some(ranks) = table_in(rt, folder, "ranks.csv") else {
        return None;
    };
    match Roster::read(rt.alloc(), &hospitals, &doctors, &ranks) {
        Ok(roster) => Some(roster),
        Err(_) => None,
    }
}

// How many contracts a roster has: the lengths of its rank lists together.
pub fn contracts_of(roster: &Roster) -> u32
    ensures { result ≡ sum_by length roster.now.ranks }
{
    let ranks = roster.ranks();
    let mut count = 0;
    for h in 0..ranks.len() {
        count += ranks.list(h).len() as u32;
    }
    count
}

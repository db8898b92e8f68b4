// The file of a command's own.

ghost use Rattle.std.specs.Prelude.{◌≡◌, ◌≤◌, IfSome};
ghost use Rattle.std.specs.FinMap.{get};
ghost use Rattle.rm_case.specs.Loading.{LoadsOwn, OwnFails};

use crate::fault::LoadFault;
use crate::table_file::read_table;
use rm_base::ReadFault;
use rm_base::codes::{MOST_BYTES, OWN_FILE};
use rm_outside::{FetchFault, Shelf};
use rm_table::Table;
use std::alloc::Global;

/// The table of a command's own file, which has this name and is file 5. `Refused` is the file's first refusal: code 10 where
/// it is missing, and 11 where it has more than 67,108,864 bytes, both with `a` and `b` 0, and 12 where row `a`, the header
/// being row 0, isn't UTF-8, with `b` 0. `Read` is always of file 5, and comes only where the shelf failed at this name, so
/// that its count of faults rose in this call. `NoMemory` is want of memory.
pub fn fetch_own<S: Shelf>(alloc: Global, shelf: &mut S, name: &str) -> Result<Table, LoadFault>
    ensures loads { IfSome (S.files shelf.old) (λ fs. LoadsOwn (get fs name.now) result) }
    ensures fails { OwnFails (S.faults shelf.old) (S.faults shelf.new) (S.blame shelf.new) name.now result }
    ensures files { S.files shelf.new ≡ S.files shelf.old }
    ensures later { S.faults shelf.old ≤ S.faults shelf.new }
{
    match shelf.fetch(alloc, name, MOST_BYTES) {
        Ok(fetched) => match read_table(alloc, OWN_FILE, fetched) {
            Ok(table) => Ok(table),
            Err(ReadFault::Refused(refusal)) => Err(LoadFault::Refused(refusal)),
            Err(ReadFault::NoMemory) => Err(LoadFault::NoMemory),
        },
        Err(FetchFault::Failed) => Err(LoadFault::Read(OWN_FILE)),
        Err(FetchFault::NoMemory) => Err(LoadFault::NoMemory),
    }
}

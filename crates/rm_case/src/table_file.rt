// One file of a table: missing, too long, or its rows.

ghost use Rattle.std.specs.Prelude.{◌≡◌, Option};
ghost use Rattle.rm_base.specs.Checks.{first_of};
ghost use Rattle.rm_base.specs.Reading.{Reads};
ghost use Rattle.rm_base.specs.Text.{Text};
ghost use Rattle.rm_base.specs.declared.codes.TheConstants.{MOST_BYTES};
ghost use Rattle.rm_outside.specs.Outside.{Tells};
ghost use Rattle.rm_case.specs.Folder.{file_checks, rows_in};

use rm_base::ReadFault;
use rm_base::codes::{FILE_MISSING, FILE_TOO_LONG, NOT_UTF8};
use rm_outside::Fetched;
use rm_table::{Table, TableFault};
use std::alloc::Global;

// The table of the file of this number, or the file's first refusal. The bytes are freed here.
pub fn read_table(alloc: Global, file: u8, fetched: Fetched) -> Result<Table, ReadFault>
    ensures { (told : Option Text) → Tells told MOST_BYTES fetched → Reads (first_of (file_checks file told)) (rows_in told) result }
{
    match fetched {
        Fetched::Absent => Err(ReadFault::refused(FILE_MISSING, file, 0, 0)),
        Fetched::Long => Err(ReadFault::refused(FILE_TOO_LONG, file, 0, 0)),
        Fetched::Bytes(bytes) => match Table::read(alloc, &bytes) {
            Ok(table) => Ok(table),
            Err(TableFault::BadText(row)) => Err(ReadFault::refused(NOT_UTF8, file, row, 0)),
            Err(TableFault::NoMemory) => Err(ReadFault::NoMemory),
        },
    }
}

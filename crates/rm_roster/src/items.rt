// The items of a row.

ghost use Rattle.std.specs.Prelude.{◌≡◌, ◌+◌, ◌-◌, ◌<◌, ◌≤◌, ℕ, List, [], get_or, length, None, IsSome, IfSome, OnOk};
ghost use Rattle.rm_base.specs.Checks.{first_of};
ghost use Rattle.rm_names.specs.Names.{place_of};
ghost use Rattle.rm_base.specs.Reading.{Grows};
ghost use Rattle.rm_ranks.specs.Built.{ListsTold, last_list, with_items};
ghost use Rattle.rm_roster.specs.Items.{number_checks, list_checks, list_in};
ghost use Rattle.rm_roster.specs.Readings.{with_item};

use crate::RosterFault;
use crate::cells::refused;
use rm_base::codes::{MOST_CHOICES, REPEATED_CHOICE, TOO_MANY, UNKNOWN_NAME};
use rm_names::Names;
use rm_ranks::{ListFault, ListsBuilder};
use rm_table::Row;

// Puts the item of field j of row i, which is None where its cell names nothing, into the list begun last.
fn push_item(
    item: Option<u32>,
    file: u8,
    limit: u64,
    i: u64,
    j: u64,
    lists: &mut ListsBuilder,
) -> Result<(), RosterFault>
    requires begun { IsSome lists.old.at }
    requires item { IfSome item (λ n. n < lists.old.items) }
    requires limit { lists.old.limit ≡ MOST_CHOICES }
    ensures { Grows (first_of (number_checks file limit i j (last_list lists.old) lists.old.held item)) (with_item lists.old item) lists.new result }
{
    let Some(n) = item else {
        return Err(refused(UNKNOWN_NAME, file, i, j));
    };
    match lists.push(n) {
        Ok(()) => Ok(()),
        Err(ListFault::Repeated) => Err(refused(REPEATED_CHOICE, file, i, j)),
        Err(ListFault::TooMany) => Err(refused(TOO_MANY, file, i, limit)),
        Err(_) => Err(RosterFault::NoMemory),
    }
}

/// Reads the cells of row i past the first into the list begun last, which is empty. `limit` is the number of the limit
/// on the items of this file.
pub fn read_items(
    row: &Row<'_>,
    file: u8,
    limit: u64,
    i: u64,
    names: &Names,
    lists: &mut ListsBuilder,
) -> Result<(), RosterFault>
    requires begun { IsSome lists.old.at }
    requires within { IfSome lists.old.at (λ list. list < length lists.old.lists) }
    requires empty { last_list lists.old ≡ [] }
    requires items { length names.now ≤ lists.old.items }
    requires limit { lists.old.limit ≡ MOST_CHOICES }
    ensures { Grows (first_of (list_checks file limit names.now i lists.old.held row.now)) (with_items lists.old (list_in names.now row.now)) lists.new result }
{
    for j in 1..row.len() {
        let cell = row.cell(j);
        if cell.is_empty() {
            continue;
        }
        let item = names.find(cell);
        push_item(item, file, limit, i, j as u64 + 1, lists)?;
    }
    Ok(())
}

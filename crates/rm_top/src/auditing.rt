// The text of `audit`: the finding on a placement that was made elsewhere.

ghost use Rattle.std.specs.Prelude.{◌≡◌, None, IfErr, IfOk};
ghost use Rattle.rm_base.specs.Checks.{first_of};
ghost use Rattle.rm_base.specs.Reading.{Stops};
ghost use Rattle.rm_market.specs.Market.{set_of_places};
ghost use Rattle.rm_case.specs.Case.{market};
ghost use Rattle.rm_audit.specs.Placement.{AreListedPlaces, placement_checks};
ghost use Rattle.rm_top.specs.Answers.{placed_in};
ghost use Rattle.rm_top.specs.Telling.{IsFindingTold};

use crate::NoMemory;
use crate::telling::Told;
use rm_audit::{Finding, audit, read_placement};
use rm_case::{Case, OwnFault, Places};
use rm_report::finding_text;
use rm_table::Table;
use std::alloc::Global;

// What is told of the finding on these places.
fn finding_told(alloc: Global, case: &Case, places: &Places) -> Result<Told, NoMemory>
    requires { AreListedPlaces case.now places.now }
    ensures { IfOk result (λ told. IsFindingTold case.now (set_of_places (market case.now) places.now) told) }
{
    let finding = audit(alloc, case, places)?;
    let text = finding_text(alloc, case, finding)?;
    let objects = match finding {
        Finding::Stable => false,
        _ => true,
    };
    Ok(Told { text, objects })
}

/// What is told of the finding on the placement that a table tells. It objects to one that isn't stable.
pub fn audit_told(alloc: Global, case: &Case, table: &Table) -> Result<Told, OwnFault>
    ensures told { IfOk result (λ told. (first_of (placement_checks case.now table.now) ≡ None) × IsFindingTold case.now (placed_in case.now table.now) told) }
    ensures stops { IfErr result (Stops (first_of (placement_checks case.now table.now))) }
{
    let places = match read_placement(alloc, case, table) {
        Ok(places) => places,
        Err(fault) => return Err(fault),
    };
    match finding_told(alloc, case, &places) {
        Ok(told) => Ok(told),
        Err(_) => Err(OwnFault::NoMemory),
    }
}

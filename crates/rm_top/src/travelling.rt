// The text of `transit`: where everybody stands after the events of a file.

ghost use Rattle.std.specs.Prelude.{◌≡◌, None, All, IfErr, IfOk};
ghost use Rattle.rm_base.specs.Checks.{first_of};
ghost use Rattle.rm_base.specs.Reading.{Stops};
ghost use Rattle.rm_market.specs.Market.{wishes_of};
ghost use Rattle.rm_case.specs.Case.{market};
ghost use Rattle.rm_transit.specs.Events.{event_table_checks, events_told};
ghost use Rattle.rm_transit.specs.Travel.{IsEventOf};
ghost use Rattle.rm_top.specs.Answers.{IsTransitText};

use crate::NoMemory;
use rm_case::{Case, OwnFault};
use rm_table::Table;
use rm_transit::{Event, read_events, run_events, transit_text};
use std::alloc::Global;

// The text of where everybody stands after these events.
fn standing_text(alloc: Global, case: &Case, events: &[Event]) -> Result<Vec<u8>, NoMemory>
    requires { All (IsEventOf (wishes_of (market case.now))) events.now }
    ensures { IfOk result (λ text. IsTransitText case.now events.now text.items) }
{
    let standing = run_events(alloc, case, events)?;
    transit_text(alloc, case, &standing.marks, standing.closed)
}

/// The text of where everybody stands after the events that a table tells.
pub fn travel_text(alloc: Global, case: &Case, table: &Table) -> Result<Vec<u8>, OwnFault>
    ensures text { IfOk result (λ text. (first_of (event_table_checks case.now table.now) ≡ None)
        × IsTransitText case.now (events_told case.now table.now) text.items) }
    ensures stops { IfErr result (Stops (first_of (event_table_checks case.now table.now))) }
{
    let events = match read_events(alloc, case, table) {
        Ok(events) => events,
        Err(fault) => return Err(fault),
    };
    match standing_text(alloc, case, &events) {
        Ok(text) => Ok(text),
        Err(_) => Err(OwnFault::NoMemory),
    }
}

// The text of `whatif`: the placements with a doctor's own list and with another one.

ghost use Rattle.std.specs.Prelude.{◌≡◌, ◌<◌, length, None, IsSome, IfErr, IfOk};
ghost use Rattle.rm_base.specs.Checks.{first_of};
ghost use Rattle.rm_base.specs.Reading.{Stops};
ghost use Rattle.rm_market.specs.Market.{IsList};
ghost use Rattle.rm_case.specs.Case.{market};
ghost use Rattle.rm_case.specs.Choices.{choice_table_checks, choices_of};
ghost use Rattle.rm_case.specs.Own.{doctor_in};
ghost use Rattle.rm_top.specs.Answers.{IsDoctorsText, IsPairText};

use crate::NoMemory;
use rm_case::{Case, Choices, OwnFault};
use rm_laws::what_if;
use rm_report::pair_text;
use rm_table::Table;
use std::alloc::Global;

// The text of both placements, where doctor d gives these hospitals in the second.
fn both_text(alloc: Global, case: &Case, d: u32, hospitals: &[u32]) -> Result<Vec<u8>, NoMemory>
    requires doctor { d < length case.now.roster.doctors }
    requires list { IsList (market case.now).board hospitals.now }
    ensures { IfOk result (λ text. IsPairText case.now d hospitals.now text.items) }
{
    let pair = what_if(alloc, case, d, hospitals)?;
    pair_text(alloc, case, &pair)
}

/// The text of both placements, where the doctor of this name, who must be one of the case, gives in the second the hospitals that
/// a table tells.
pub fn whatif_text(
    alloc: Global,
    case: &Case,
    doctor: &str,
    table: &Table,
) -> Result<Vec<u8>, OwnFault>
    requires { IsSome (doctor_in case.now doctor.now) }
    ensures text { IfOk result (λ text. (first_of (choice_table_checks case.now table.now) ≡ None)
        × IsDoctorsText case.now doctor.now (choices_of case.now table.now) text.items) }
    ensures stops { IfErr result (Stops (first_of (choice_table_checks case.now table.now))) }
{
    let Some(d) = case.roster().doctors().find(doctor) else {
        unreachable!()
    };
    let choices = match Choices::read(alloc, case, table) {
        Ok(choices) => choices,
        Err(fault) => return Err(fault),
    };
    match both_text(alloc, case, d, choices.hospitals()) {
        Ok(text) => Ok(text),
        Err(_) => Err(OwnFault::NoMemory),
    }
}

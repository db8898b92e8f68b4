//! What another list would give a doctor: two placements of one case.
#![tactic(auto)]

ghost use Rattle.std.specs.Prelude.{◌<◌, length, IfOk};
ghost use Rattle.rm_market.specs.Market.{IsList};
ghost use Rattle.rm_case.specs.Case.{IsCase, market};
ghost use Rattle.rm_laws.specs.WhatIf.{AreBothPlaces};

pub use rm_base::NoMemory;
use rm_case::Case;
pub use rm_case::Pair;
use std::alloc::Global;

/// The placement of a case, and that where only the list of doctor d, counted from 0, is replaced by these hospitals, each once,
/// best first; an empty list withdraws him. The second gives him no hospital that his own list prefers to his place in the first:
/// no doctor gains by stating another list (Hatfield and Milgrom 2005). `NoMemory` is want of memory.
pub fn what_if(alloc: Global, case: &Case, d: u32, hospitals: &[u32]) -> Result<Pair, NoMemory>
    requires doctor { d < length case.now.roster.doctors }
    requires list { IsList (market case.now).board hospitals.now }
    ensures both { IfOk result (λ pair. AreBothPlaces case.now d hospitals.now pair.declared pair.replaced) }
    ensures case { IsCase case.now }
{
    let declared = case.solve(alloc)?;
    let listed = case.listed_with(alloc, d, hospitals)?;
    let replaced = case.solve_with(alloc, &listed)?;
    Ok(Pair { declared, replaced })
}

//! What a greater cap would give, and what a doctor's withdrawal: two placements of one case, and nobody else is worse off.
#![tactic(auto)]

mod asked;

ghost use Rattle.std.specs.Prelude.{◌<◌, length, IfOk};
ghost use Rattle.rm_case.specs.Case.{IsCase};
ghost use Rattle.rm_case.specs.Raised.{MayRaise};
ghost use Rattle.rm_relax.specs.Relaxed.{AreRelaxed, AreWithoutHim};

pub use asked::{Asked, ask};
pub use rm_base::NoMemory;
use rm_case::Case;
pub use rm_case::Pair;
use rm_laws::what_if;
use std::alloc::Global;

/// The placement of a case, and that where group g, counted from 0, has this cap in place of its own. The group must be given by
/// `cap`, with no node outside it, and the cap is its own or a greater one, at most 1,000,000. No doctor prefers his former place. A
/// hospital may be worse off. `NoMemory` is want of memory.
pub fn relax(alloc: Global, case: &Case, g: u32, cap: u32) -> Result<Pair, NoMemory>
    requires { MayRaise case.now g cap }
    ensures relaxed { IfOk result (λ pair. AreRelaxed case.now g cap pair.declared pair.replaced) }
    ensures case { IsCase case.now }
{
    let declared = case.solve(alloc)?;
    let board = case.raised(alloc, g, cap)?;
    let replaced = case.solve_on(alloc, &board)?;
    Ok(Pair { declared, replaced })
}

/// The placement of a case, and that where doctor d, counted from 0, withdraws his list. No other doctor prefers his former place.
/// `NoMemory` is want of memory.
pub fn withdraw(alloc: Global, case: &Case, d: u32) -> Result<Pair, NoMemory>
    requires { d < length case.now.roster.doctors }
    ensures withdrawn { IfOk result (λ pair. AreWithoutHim case.now d pair.declared pair.replaced) }
    ensures case { IsCase case.now }
{
    what_if(alloc, case, d, &[])
}

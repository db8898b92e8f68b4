//! The flexible procedure of a case, run as it is written: doctors apply one at a time, in an order of the caller's.
#![tactic(auto)]

ghost use Rattle.std.specs.Prelude.{◌≡◌, ◌<◌, All, IfOk, IsTrue, length};
ghost use Rattle.rm_flexible.specs.Counts.{AreBelow};
ghost use Rattle.rm_policy.specs.Top.{is_flexible};
ghost use Rattle.rm_case.specs.Case.{IsCase, market, regions as case_regions};
ghost use Rattle.rm_case.specs.Solving.{IsSolved};
ghost use Rattle.rm_market.specs.Market.{wishes_of};
ghost use Rattle.rm_replay.specs.Played.{IsPlayedBy, IsPlayedOut, kept_in, turns_in};

mod desk;

pub use desk::Played;
use desk::play;
pub use rm_base::NoMemory;
use rm_case::Case;
use rm_choice::ChoiceHolder;
use rm_flexible::{Flexible, Region};
use std::alloc::Global;

/// Runs the flexible procedure of the case, which must have a flexible policy: the doctors of `order` have their turns, in this
/// order, and then others until nobody can apply any more. At his turn a doctor applies to the best listed hospital that hasn't
/// refused him, and the hospitals of each region keep of what they hold and of him what `rm_flexible::pick` keeps, by targets
/// and turns (after Kamada and Kojima 2015). The steps into which the policy is compiled play no part.
///
/// A doctor is his row of `doctors.csv`, counted from 0, and may stand in `order` any number of times. `turns` has one entry for
/// each entry of `order`: `Idle` where the doctor is held, `Done` where he isn't held and has no hospital left, and else the
/// contract that he offered, by its number on the board, counted from 0, and what became of it. `places` are the places when
/// nobody can apply any more, told as by `Case::solve`, and are the same as its. `NoMemory` is want of memory.
///
/// Each application costs the number of contracts that are held and of hospitals, and one look at each hospital of a region in
/// each of its rounds of turns.
pub fn flexible_run(alloc: Global, case: &Case, order: &[u32]) -> Result<Played, NoMemory>
    requires flexible { IsTrue (is_flexible case.now.policy.kind) }
    requires doctors { All (λ d. d < length case.now.roster.doctors) order.now }
    ensures turns { IfOk result (λ played. played.turns.items ≡ turns_in case.now order.now) }
    ensures ended { IfOk result (λ played. IsPlayedOut case.now order.now played.places) }
    ensures solved { IfOk result (λ played. IsSolved case.now played.places) }
    ensures case { IsCase case.now }
{
    let regions = case.regions(alloc)?;
    play_regions(alloc, case, &regions, order)
}

// The run of these regions, which are those of the case.
fn play_regions(
    alloc: Global,
    case: &Case,
    regions: &[Region],
    order: &[u32],
) -> Result<Played, NoMemory>
    requires flexible { IsTrue (is_flexible case.now.policy.kind) }
    requires doctors { All (λ d. d < length case.now.roster.doctors) order.now }
    requires regions { regions.now ≡ case_regions case.now }
    requires hospitals { All (AreBelow (length (market case.now).board.ranks)) regions.now }
    ensures { IfOk result (λ played.
        IsPlayedBy (kept_in case.now) (market case.now).board (wishes_of (market case.now)) order.now played.turns.items played.places) }
{
    let board = case.board();
    let choice = Flexible::new(board, regions);
    let holder = ChoiceHolder::open(alloc, choice)?;
    play(alloc, board, case.listed(), holder, order)
}

#[cfg(test)]
mod tests;

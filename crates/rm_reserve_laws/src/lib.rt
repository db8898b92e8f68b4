//! Reserved seats: of the contracts of a class the best take the seats that are reserved for it, and then the best others the seats that are
//! left. What is picked so is a lawful choice, and the best subset on a board whose nodes say the same.
//! The functions have no code: each carries a theorem for the crates that compute.
#![tactic(auto)]

ghost use Rattle.rm_market.specs.Laws.{IsTruthful, PlacesSame, RunsWell};
ghost use Rattle.rm_matching_laws.specs.Results.{RunsClose};
ghost use Rattle.rm_reserve_laws.specs.Units.{UnitsMakeBoards};
ghost use Rattle.rm_reserve_laws.specs.Results.{InMarketsOfPlans, OfPlans, OfReserved, OnBoardsOfPlans, PickedIsReserved, PicksAreLawful, ReservedHasPlacement, ReservedIsBest, ReservedIsLawful, ReservedIsPicked, ReservedRunsCloseIn, ReservedRunsWellIn};

/// What is picked, told by counts, on any board: hospitals that leave a contract are full, the quota of its leaf has all its seats, and
/// whoever is held and ranked below it holds a reserved seat. No other set is so: for one who is left out and asks why.
pub fn what_is_reserved()
    ensures counts { OfPlans ReservedIsPicked }
    ensures only { OfPlans PickedIsReserved }
{}

/// The reserved pick is a lawful choice, on any board: contracts are substitutes, and the law of aggregate demand holds. So is the pick of
/// each hospital among its own contracts.
pub fn reserved_picks_are_lawful()
    ensures all { OfPlans ReservedIsLawful }
    ensures one { OfPlans PicksAreLawful }
{}

/// On the board of the plan, with any tie order that agrees with the rank lists, the reserved pick is the best subset. So what is proved of
/// boards is proved of reserved seats.
pub fn reserved_picks_are_best()
    ensures { OnBoardsOfPlans ReservedIsBest }
{}

/// By the reserved pick, on any board, each run has the laws of a lawful choice, and no doctor gains by another list.
pub fn reserved_runs_are_lawful()
    ensures runs { OfReserved RunsWell }
    ensures closes { OfReserved RunsClose }
    ensures same { OfReserved PlacesSame }
    ensures truthful { OfReserved IsTruthful }
{}

/// In a market on the board of the plan, closed runs by the reserved pick end in the market's placement, and each run goes on to a closed one.
pub fn reserved_runs_give_the_placement()
    ensures runs { InMarketsOfPlans ReservedRunsWellIn }
    ensures closes { InMarketsOfPlans ReservedRunsCloseIn }
    ensures placement { InMarketsOfPlans ReservedHasPlacement }
{}

/// Units, which stand for a hospital and a class of doctors, can be the leaves: the nodes of units, quotas and split hospitals make the board of
/// the plan, with rank lists of known doctors and any tie order.
pub fn boards_of_plans()
    ensures { UnitsMakeBoards }
{}

//! Contracts that no node tells apart: where one was refused, those after it are. So a bound for each leaf answers offers.
//! The functions have no code: each carries a theorem for the crates that compute.
#![tactic(auto)]

ghost use Rattle.rm_market_laws.specs.Results.{OfBestChoices};
ghost use Rattle.rm_bound_laws.specs.Alike.{IsOrderedBoard};
ghost use Rattle.rm_bound_laws.specs.Results.{AlikeAtOneHospital, AlikeInOrder, BoundRefuses, BoundedHoldsSame, BoundsAreLowered, BoundsBegin, BoundsFall, BoundsOfAll, BoundsStay, EarlierIsTaken, HeldIsBelow, HeldOfAll, LaterIsRefused, OfBoardChoices, OfBoards, OfOrderedChoices, OneLeafIsAlike, SwapIsFree, TurnedAwayBounds, TurnedAwayBoundsIn};

/// No node tells contracts of one leaf apart. Such contracts are at one hospital, and stand in tie order as their numbers do. So their numbers
/// may be compared in place of their places in tie order.
pub fn alike_contracts()
    ensures leaf { OneLeafIsAlike }
    ensures hospital { OfBoards AlikeAtOneHospital }
    ensures order { OfBoards AlikeInOrder }
    ensures board { OfBoards IsOrderedBoard }
{}

/// Of two such contracts the later one is never taken before the other: in the place of the other one it is worth as much.
pub fn earlier_first()
    ensures swap { SwapIsFree }
    ensures taken { OfBoards EarlierIsTaken }
{}

/// Where one was refused of some set, each later one is refused of every set that includes it. So a refusal answers later offers too.
pub fn later_is_refused()
    ensures { OfBoards LaterIsRefused }
{}

/// Where contracts are offered in turn, what is held is chosen of all of them; and once a contract was turned away, at its offer or after it,
/// no offer of a later one like it changes anything.
pub fn offers_in_turn()
    ensures held { OfBoardChoices HeldOfAll }
    ensures bound { OfBoardChoices TurnedAwayBounds }
    ensures turns { OfBestChoices TurnedAwayBoundsIn }
{}

/// A bound for each leaf: a contract that isn't below it changes nothing, and what is held is below it. At first there is none, and each
/// offer keeps the bounds, and lowers that of the contract that it turned away.
pub fn bounds_of_leaves()
    ensures begin { OfOrderedChoices BoundsBegin }
    ensures all { OfOrderedChoices BoundsOfAll }
    ensures refuse { OfOrderedChoices BoundRefuses }
    ensures held { OfOrderedChoices HeldIsBelow }
    ensures stay { OfOrderedChoices BoundsStay }
    ensures lowered { OfOrderedChoices BoundsAreLowered }
    ensures fall { OfOrderedChoices BoundsFall }
{}

/// A holder that keeps bounds, and asks for a choice only below them, holds what one holds that always asks: for a holder that spares itself
/// offers in vain.
pub fn bounded_holder()
    ensures { OfOrderedChoices BoundedHoldsSame }
{}

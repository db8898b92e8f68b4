//! Every market has exactly one placement, and what holds of it: theorems over the definitions of rm_market.
//! The functions have no code: each carries a theorem for the crates that compute.
#![tactic(auto)]

ghost use Rattle.rm_market_laws.specs.Results.{BestOfChoosesBest, HasPlacement, HasWishes, IsLawfulIn, IsTruthfulIn, OfBestChoices, OfMarkets, PlacementExists, PlacesSameIn, RunsCloseIn, RunsWellIn, SolveIsPlacement, StaysMarket};

/// The lists of a market are wishes over its contracts, and a doctor's new list of hospitals gives a market again.
pub fn market_wishes()
    ensures wishes { OfMarkets HasWishes }
    ensures replaced { OfMarkets StaysMarket }
{}

/// The best subsets are a lawful choice, and the plain program over all subsets gives them.
pub fn best_subsets_are_lawful()
    ensures plain { OfMarkets BestOfChoosesBest }
    ensures lawful { OfBestChoices IsLawfulIn }
{}

/// Deferred acceptance in every order: what is held is the best subset of what was offered, what was refused stands in no stable set, and
/// where a run is closed the placement is held. Each run goes on to a closed one.
pub fn deferred_acceptance()
    ensures runs { OfBestChoices RunsWellIn }
    ensures closes { OfBestChoices RunsCloseIn }
{}

/// Every market has exactly one placement, the stable set that is best for every doctor: the plain program by turns gives it, and some
/// closed run ends in it.
pub fn one_placement()
    ensures exists { OfMarkets PlacementExists }
    ensures solved { OfMarkets SolveIsPlacement }
    ensures reached { OfBestChoices HasPlacement }
{}

/// The rural hospitals theorem, for doctors: all stable sets of a market place the same doctors.
pub fn rural_hospitals()
    ensures { OfMarkets PlacesSameIn }
{}

/// Truthfulness, or strategy-proofness for doctors: by no other list of hospitals does a doctor get a contract that he prefers.
pub fn truthfulness()
    ensures { OfMarkets IsTruthfulIn }
{}

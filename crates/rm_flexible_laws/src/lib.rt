//! The flexible procedure of regions: what it keeps, that this is a lawful choice and on the regions' board the best subset, the count form
//! of stable placements, and that its runs end in the market's placement.
//! The functions have no code: each carries a theorem for the crates that compute.
#![tactic(auto)]

ghost use Rattle.rm_market.specs.Laws.{IsTruthful, PlacesSame, RunsWell};
ghost use Rattle.rm_matching_laws.specs.Results.{RunsClose};
ghost use Rattle.rm_flexible_laws.specs.Results.{BestIsPicked, FlexibleHasPlacement, FlexibleIsBest, FlexibleIsLawful, FlexibleIsPicked, FlexibleRunsCloseIn, FlexibleRunsEnd, FlexibleRunsWellIn, InMarketsOfRegions, KeptIsBest, KeptIsPicked, OfFlexible, OfRegions, OnBoardsOfRegions, PickedIsOne, RegionsOfHospitals, SameOptimal, SeatStepsFall, StableInIsCountForm, StableIsCountForm};

/// Regions in which each hospital with a rank list stands once are lawful.
pub fn regions_of_hospitals()
    ensures { RegionsOfHospitals }
{}

/// What regions keep, told by counts, on any board: within the caps, and each other contract is passed over. No other set is so.
pub fn what_regions_keep()
    ensures one { OfRegions KeptIsPicked }
    ensures all { OfRegions FlexibleIsPicked }
    ensures only { OfRegions PickedIsOne }
{}

/// What regions keep is a lawful choice, on any board: contracts are substitutes, and the law of aggregate demand holds.
pub fn regions_are_lawful()
    ensures { OfRegions FlexibleIsLawful }
{}

/// On the board of the regions, with any tie order that agrees with the rank lists, what they keep is the best subset.
pub fn regions_keep_the_best()
    ensures one { OnBoardsOfRegions KeptIsBest }
    ensures all { OnBoardsOfRegions FlexibleIsBest }
    ensures picked { OnBoardsOfRegions BestIsPicked }
{}

/// On the board of the regions a feasible placement is stable exactly where it has the count form.
pub fn stable_is_count_form()
    ensures board { OnBoardsOfRegions StableIsCountForm }
    ensures market { InMarketsOfRegions StableInIsCountForm }
{}

/// On the board of the regions the flexible procedure and best subsets have the same optimal placements, so its closed runs end in the
/// market's.
pub fn same_optimal_placements()
    ensures same { OnBoardsOfRegions SameOptimal }
    ensures ends { OnBoardsOfRegions FlexibleRunsEnd }
{}

/// The worths of a hospital's seats never rise.
pub fn seat_steps_never_rise()
    ensures { SeatStepsFall }
{}

/// By what regions keep, on any board, each run has the laws of a lawful choice, and no doctor gains by another list.
pub fn flexible_runs_are_lawful()
    ensures runs { OfFlexible RunsWell }
    ensures closes { OfFlexible RunsClose }
    ensures same { OfFlexible PlacesSame }
    ensures truthful { OfFlexible IsTruthful }
{}

/// In a market on the board of the regions, closed runs of the flexible procedure end in the market's placement, and each run goes on to a
/// closed one.
pub fn flexible_runs_give_the_placement()
    ensures runs { InMarketsOfRegions FlexibleRunsWellIn }
    ensures closes { InMarketsOfRegions FlexibleRunsCloseIn }
    ensures placement { InMarketsOfRegions FlexibleHasPlacement }
{}

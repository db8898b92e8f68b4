//! What holds of the best subsets of any valuation, of the valuations that boards give, and of one offer to a held set.
//! The functions have no code: each carries a theorem, over any sets of contracts, for the crates that compute them.
#![tactic(auto)]

ghost use Rattle.rm_valuation_laws.specs.Laws.{ScoreDecides, ScoresDiffer, ScoresHaveExchange, ScoresHaveSizeExchange, BestBySingleChanges, GreedyIsBest, BestIsOne, GreedyStart, GreedyStep, GreedyFull, GreedyStop, BestSubsetsAreLawful, OfferHasThreeAnswers, OfferAnswerIsBest, AdditionBeatsSwap, SwapBeatsHeld, HeldBeatsSwap, LaminarBoardsAreValuations, AdditionChangesWorth, RemovalChangesWorth, SwapChangesWorth, GainIsSum, LossIsSum, AdditionFits, FullNodeStopsAddition, SwapFits, FullNodeStopsSwap, WalkMayEnd, SameNodesAtOneStep, CheaperIsDisplaced, CheapestOfChildren, CheapestAtLeaf, CheapestDependsInside, ChildHasContract, ParentIsJustAbove, NothingUnderLeaf, UnderIsInside, StepOfWalk, LeafOfWalk, RootOfWalk, SwapLosesAtChild, MarketBoardsAreValuations, BestOfIsBest, BestOfBoardIsBest, BestOfBoardIsOnly, BestOfBoardIsLawful};

// ---- any valuation

/// Worth and tie order are one number, the score: it decides which of two feasible sets is better, differs for different sets, and has both exchanges.
pub fn score_decides()
    ensures better { ScoreDecides }
    ensures strict { ScoresDiffer }
    ensures exchange { ScoresHaveExchange }
    ensures size_exchange { ScoresHaveSizeExchange }
{}

/// A set is the best subset exactly where no single addition, removal or swap makes it better: a local optimum is a global one (Murota).
pub fn best_by_single_changes()
    ensures { BestBySingleChanges }
{}

/// Greedy addition ends in the best subset, which is the only one.
pub fn greedy_finds_the_best()
    ensures best { GreedyIsBest }
    ensures only { BestIsOne }
{}

/// The steps of greedy addition: the addition of greatest worth, of equal worth the first in tie order, while the worth doesn't fall.
pub fn greedy_steps()
    ensures start { GreedyStart }
    ensures step { GreedyStep }
    ensures full { GreedyFull }
    ensures stop { GreedyStop }
{}

/// The best subsets are a lawful choice: contracts are substitutes, the law of aggregate demand holds, and rejected contracts are irrelevant.
pub fn best_subsets_are_lawful()
    ensures { BestSubsetsAreLawful }
{}

/// After an offer to a set that is its own choice, the choice is that set, the set with the offer, or the set with the offer in the place of one contract.
pub fn one_offer()
    ensures kinds { OfferHasThreeAnswers }
    ensures best { OfferAnswerIsBest }
{}

/// How the outcomes of an offer compare: by worth, and at equal worth an addition wins, and a swap exactly where the offer stands
/// before the displaced contract.
pub fn one_decision()
    ensures addition { AdditionBeatsSwap }
    ensures swap { SwapBeatsHeld }
    ensures held { HeldBeatsSwap }
{}

// ---- boards

/// The worth by nodes that are nested or apart, with steps that never rise, is M-natural concave (Kojima, Tamura and Yokoo 2018, the laminar case).
pub fn boards_are_m_natural_concave()
    ensures { LaminarBoardsAreValuations }
{}

/// What one addition, removal or swap does to the worth.
pub fn changes_of_worth()
    ensures added { AdditionChangesWorth }
    ensures removed { RemovalChangesWorth }
    ensures swapped { SwapChangesWorth }
{}

/// The gain and the loss of one contract are sums along its chain of nodes.
pub fn sums_along_chains()
    ensures gain { GainIsSum }
    ensures loss { LossIsSum }
{}

/// Where an addition or a swap is feasible: a full node of the offer stops an addition, and a swap exactly where it lacks the displaced contract.
pub fn feasible_changes()
    ensures addition { AdditionFits }
    ensures no_addition { FullNodeStopsAddition }
    ensures swap { SwapFits }
    ensures no_swap { FullNodeStopsSwap }
{}

/// An offer needs to look at no contract outside its innermost full node, or outside its outermost node where none is full; and
/// which of the contracts at one step of that walk it displaces.
pub fn one_walk()
    ensures ends { WalkMayEnd }
    ensures step { SameNodesAtOneStep }
    ensures first { CheaperIsDisplaced }
{}

/// The cheapest removal at a node, from those at its children.
pub fn cheapest_removals()
    ensures children { CheapestOfChildren }
    ensures leaf { CheapestAtLeaf }
    ensures agree { CheapestDependsInside }
{}

/// The order of the nodes gives what the walk and the kept removals rest on.
pub fn order_of_nodes()
    ensures child { ChildHasContract }
    ensures just_above { ParentIsJustAbove }
    ensures leaf { NothingUnderLeaf }
    ensures under { UnderIsInside }
    ensures walk_step { StepOfWalk }
    ensures walk_leaf { LeafOfWalk }
    ensures walk_root { RootOfWalk }
    ensures swap_loss { SwapLosesAtChild }
{}

/// The boards of a market are M-natural concave.
pub fn market_boards_are_m_natural_concave()
    ensures { MarketBoardsAreValuations }
{}

/// On a market's board the plain program over all subsets gives the best subset, which is the only one, and so it is a lawful choice.
pub fn best_of_boards()
    ensures any { BestOfIsBest }
    ensures best { BestOfBoardIsBest }
    ensures only { BestOfBoardIsOnly }
    ensures choice { BestOfBoardIsLawful }
{}

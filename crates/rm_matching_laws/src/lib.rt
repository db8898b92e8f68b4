//! Lawful choices, deferred acceptance, stable and optimal sets: theorems over the definitions of rm_market.
//! The functions have no code: each carries a theorem for the crates that compute.
#![tactic(auto)]

ghost use Rattle.std.specs.Prelude.{ℕ, List};
ghost use Rattle.rm_market.specs.Stable.{Wishes};
ghost use Rattle.rm_market.specs.Laws.{EveryChoiceRunsWell, IsTruthful, PlacesSame, RunsWell};
ghost use Rattle.rm_matching_laws.specs.Results.{ChoicesSwapOne, ChoicesHaveOutcomes, ClosedIsTested, HasOneOptimal, LawfulIsPathIndependent, LawfulPartsJoin, OfLawfulChoices, OptimalIsOne, RoundsClose, RunsClose};

/// Path independence: to choose first from one part changes nothing (Aygun and Sonmez).
#[tactic(auto, using(crate::proofs::PathIndependence::path_independence))]
pub fn path_independence()
    ensures { LawfulIsPathIndependent }
{}

/// A lawful choice answers one more contract in one of three ways, and the outcome says in which.
pub fn one_more_contract()
    ensures swaps { ChoicesSwapOne }
    ensures outcome { ChoicesHaveOutcomes }
{}

/// What lawful choices over disjoint parts of the contracts choose together is a lawful choice.
pub fn lawful_parts_join()
    ensures { LawfulPartsJoin }
{}

/// Deferred acceptance in every order: what is held is chosen of all that was offered, what was refused stands in no stable set, and
/// where a run is closed the one optimal set is held (Hatfield and Milgrom 2005). Each run goes on to a closed one.
pub fn deferred_acceptance()
    ensures runs { OfLawfulChoices RunsWell }
    ensures closes { OfLawfulChoices RunsClose }
{}

/// Turns of all doctors in order, as many rounds as contracts are listed, close every run; and the test for closed states is right.
pub fn rounds_close()
    ensures tested { OfLawfulChoices ClosedIsTested }
    ensures closed { OfLawfulChoices RoundsClose }
{}

/// Exactly one stable set is best for every doctor among all stable sets.
pub fn one_optimal_set()
    ensures one { (chosen : List ℕ → List ℕ) (w : Wishes) → OptimalIsOne chosen w }
    ensures exists { OfLawfulChoices HasOneOptimal }
{}

/// The rural hospitals theorem, for doctors: all stable sets place the same doctors (Roth; Hatfield and Milgrom 2005).
pub fn rural_hospitals()
    ensures { OfLawfulChoices PlacesSame }
{}

/// Truthfulness, or strategy-proofness for doctors: by no other list does a doctor get a contract that he prefers.
pub fn truthfulness()
    ensures { OfLawfulChoices IsTruthful }
{}

/// Of every lawful choice: deferred acceptance, rural hospitals and truthfulness together.
pub fn every_lawful_choice()
    ensures { EveryChoiceRunsWell }
{}

//! What the verdict on a choice, the rows of its certificate and the finding on a placement say, and what the plain programs find.
//! The functions have no code: each carries a theorem on the definitions, for the crates that compute them.
#![tactic(auto)]

ghost use Rattle.std.specs.Prelude.{ℕ, List};
ghost use Rattle.rm_market.specs.Board.{Board, IsBoard};
ghost use Rattle.rm_market.specs.Market.{Market, IsMarket};
ghost use Rattle.rm_verdict_laws.specs.Laws.{VerdictsHold, BestWhereBest, OverWhereInfeasible, RowsHold, FindingsHold, StableWhereStable, StableTestDecides, StableSetsAreAll, OptimalSetsAreAll};

/// Each verdict holds of the choice, and no other one does: `Best` comes exactly where the choice is the best subset, and any other
/// verdict is the first single change that gives a better set, or the least node over its cap.
pub fn verdicts()
    ensures hold { (doctors : ℕ) (b : Board) → IsBoard doctors b → VerdictsHold b }
    ensures best { (doctors : ℕ) (b : Board) → IsBoard doctors b → BestWhereBest b }
    ensures over { (b : Board) (S : List ℕ) → OverWhereInfeasible b S }
{}

/// Each row of a certificate holds of its contract, and no other one does: what the set loses without it; or what it gains with it, or
/// the innermost full node that keeps it out, and the best swap for it.
pub fn certificates()
    ensures { (doctors : ℕ) (b : Board) → IsBoard doctors b → RowsHold b }
{}

/// Each finding holds of the placement, and no other one does: `Stable` comes exactly where the placement is stable, and any other
/// finding is the least node over its cap, the first removal that gives a better set, or the first contract that blocks.
pub fn findings()
    ensures hold { (m : Market) → IsMarket m → FindingsHold m }
    ensures stable { (m : Market) → IsMarket m → StableWhereStable m }
{}

/// The plain programs that try all sets find exactly the stable sets and the optimal ones.
pub fn plain_programs()
    ensures test { (m : Market) → IsMarket m → StableTestDecides m }
    ensures stable { (m : Market) → IsMarket m → StableSetsAreAll m }
    ensures optimal { (m : Market) → IsMarket m → OptimalSetsAreAll m }
{}

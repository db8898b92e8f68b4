//! What follows from the laws of a choice, whatever it chooses.

ghost use Rattle.std.specs.Prelude.{ℕ, ◌<◌, List};
ghost use Rattle.rm_market.specs.Best.{IsChoice, IsPathIndependent};
ghost use Rattle.rm_market.specs.Laws.{IsPartChoice, joined};

use crate::Parts;

/// Path independence: of two sets together the same is chosen as of what is chosen of the one together with the other.
#[tactic(auto, using(rm_matching_laws::proofs::PathIndependence::path_independence))]
pub fn path_independence()
    ensures { (n : ℕ) (chosen : List ℕ → List ℕ) → IsChoice n chosen → IsPathIndependent n chosen }
{}

/// What lawful parts choose together, each of its own contracts, is lawful.
pub fn lawful_parts_join<P: Parts>(parts: &P)
    ensures { ((k : ℕ) → k < P.parts parts.now → IsPartChoice (P.count parts.now) (P.part parts.now) k (P.chooses parts.now k))
        → IsChoice (P.count parts.now) (joined (P.parts parts.now) (P.part parts.now) (P.chooses parts.now)) }
{}

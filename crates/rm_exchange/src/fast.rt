// A holder that answers each offer by one exchange.

ghost use Rattle.std.specs.Prelude.{◌≡◌, ◌<◌, ◌^◌, ℕ, List, [], All, true, false, None, length, get_or, map, replicate, IfOk, IsFalse};
ghost use Rattle.rm_sets.specs.Sets.{has, with_one, IsSetBelow};
ghost use Rattle.rm_sets.proofs.Sets.{IsSetBelow-all_below};
ghost use Rattle.rm_market.specs.Board.{contract_count, leaf_of, node_at};
ghost use Rattle.rm_market.specs.Best.{IsBest, best_of, values_of};
ghost use Rattle.rm_market.specs.Machine.{IsOutcome};
ghost use Rattle.rm_valuation_laws.specs.Changes.{IsConcaveBoard};
ghost use Rattle.rm_valuation_laws.specs.Offers.{IsFull};
ghost use Rattle.rm_valuation_laws.proofs.BestOf.{concave_choice};
ghost use Rattle.rm_valuation.specs.Counts.{IsMarketBoard};
ghost use Rattle.rm_exchange.specs.Leaves.{AreLeaves};
ghost use Rattle.rm_exchange.specs.Holding.{held_in, AreNexts, IsAllKept, IsHolding};

use crate::holding::{Holding, hold, release, swap_at_leaf};
use crate::leaf::empty_leaves;
use crate::places::all_places;
use crate::prospects::{decide, walk};
use crate::tournament::Tournament;
use rm_board::Board;
use rm_choice::{Holder, NoMemory, Outcome};
use rm_valuation::next_step;
use std::alloc::Global;

/// Holds, after each offer, the best subset of what it held and the offer: the feasible set of greatest worth, of equal worth the first
/// in tie order.
///
/// An offer displaces at most one held contract. At a hospital that is full by itself this is the last one there, and an offer
/// that comes later still is refused with nothing else looked at. Elsewhere an offer walks along its chain of nodes up to the
/// first full one, and at each of them looks at the one held contract whose removal loses least there. Then it mends what is
/// kept along its own chain, and along that of the contract that it displaces. So an offer costs the sum, over the nodes of
/// these two chains, of the logarithms of how many held contracts the hospital has, or how many nodes lie just inside the group
/// (Kojima, Tamura and Yokoo 2018, the laminar case).
#[derive(Drop)]
pub struct FastHolder<'a> {
    board: &'a Board,
    places: Vec<usize>,
    holding: Holding,
    ghost concave: { IsConcaveBoard board.now },
    ghost leaves: { length board.now.leaves ≡ contract_count board.now },
    ghost settled: { best_of (values_of board.now) (held_in board.now holding) ≡ held_in board.now holding },
    ghost kept: { ∥ IsAllKept board.now places.items holding ∥₁ },
}

impl<'a> FastHolder<'a> {
    /// Holds nothing at first, and takes all memory that later calls need: it is in proportion to the contracts and nodes of the
    /// board, which is that of a market. The contracts that are offered count from 0. `NoMemory` comes only where that memory
    /// is wanting.
    pub fn open(alloc: Global, board: &'a Board) -> Result<FastHolder<'a>, NoMemory>
        requires { IsMarketBoard board.now }
        ensures held { IfOk result (λ h. ⟦<FastHolder<'a> as Holder>⟧.held h ≡ []) }
        ensures count { IfOk result (λ h. ⟦<FastHolder<'a> as Holder>⟧.count h ≡ contract_count board.now) }
        ensures chosen { IfOk result (λ h. ⟦<FastHolder<'a> as Holder>⟧.chosen h ≡ best_of (values_of board.now)) }
        ensures best { (X : List ℕ) → IsSetBelow (contract_count board.now) X
            → IfOk result (λ h. IsBest (values_of board.now) X (⟦<FastHolder<'a> as Holder>⟧.chosen h X)) }
    {
        let at = all_places(alloc, board)?;
        let holding = nothing(alloc, board, &at.widths)?;
        Ok(FastHolder {
            board,
            places: at.places,
            holding,
        })
    }
}

impl<'a> Holder for FastHolder<'a> {
    ghost count = { λ h. contract_count h.board.now };

    ghost held = { λ h. held_in h.board.now h.holding };

    ghost chosen = { λ h. best_of (values_of h.board.now) };

    ghost lawful = { λ h. concave_choice h.board.now h.concave h.leaves };

    ghost is_set = { λ h. IsSetBelow-all_below (contract_count h.board.now) (λ x. get_or h.holding.marks.items x false) };

    ghost settled = { λ h. h.settled };

    fn contracts(&self) -> u32 {
        self.board.contracts()
    }

    fn holds(&self, x: u32) -> bool {
        self.holding.marks[x as usize]
    }

    fn offer(&mut self, x: u32) -> Outcome {
        offer(self.board, &self.places, &mut self.holding, x)
    }
}

// The step that the next contract takes at each node, where there are so many.
fn all_nexts(alloc: Global, board: &Board, counts: &[u32]) -> Result<Vec<Option<i64>>, NoMemory>
    requires { length counts.now ≡ length board.now.nodes }
    ensures { IfOk result (λ nexts. AreNexts board.now (λ k. true) counts.now nexts.items) }
{
    let mut nexts = Vec::with_capacity(alloc, counts.len())?;
    for node in 0..board.tree().nodes() {
        nexts.push(next_step(board, counts, node))?;
    }
    Ok(nexts)
}

// Nothing held, with so many places at each node.
fn nothing(alloc: Global, board: &Board, widths: &[usize]) -> Result<Holding, NoMemory>
    requires { All (λ width. width < 2 ^ 40) widths.now }
    ensures counts { IfOk result (λ h. h.counts.items ≡ replicate (length board.now.nodes) 0) }
    ensures nexts { IfOk result (λ h. AreNexts board.now (λ k. true) h.counts.items h.nexts.items) }
    ensures marks { IfOk result (λ h. h.marks.items ≡ replicate (contract_count board.now) false) }
    ensures leaves { IfOk result (λ h. AreLeaves board.now [] h.leaves.items) }
    ensures hospitals { IfOk result (λ h. (x : ℕ) → x < contract_count board.now → leaf_of board.now x < length board.now.ranks) }
    ensures rivals { IfOk result (λ h. h.rivals.items ≡ map (λ width. replicate width None) widths.now) }
{
    let nodes = board.tree().nodes();
    let counts = vec![in alloc; 0; nodes as usize]?;
    let nexts = all_nexts(alloc, board, &counts)?;
    let marks = vec![in alloc; false; board.contracts() as usize]?;
    let leaves = empty_leaves(alloc, board)?;
    let mut rivals = Vec::with_capacity(alloc, widths.len())?;
    for i in 0..widths.len() {
        rivals.push(Tournament::new(alloc, widths[i])?)?;
    }
    Ok(Holding {
        counts,
        nexts,
        marks,
        leaves,
        rivals,
    })
}

// Offers x to what is held, where its hospital's own node is full: x takes the place of the last contract there, if that one
// comes after x.
fn offer_to_full(board: &Board, places: &[usize], holding: &mut Holding, x: u32) -> Outcome
    requires holding { IsHolding board.now places.now holding.old }
    requires contract { x < contract_count board.now }
    requires new { IsFalse (has x (held_in board.now holding.old)) }
    requires full { IsFull board.now (held_in board.now holding.old) (node_at board.now (leaf_of board.now x)) }
    ensures holding { IsHolding board.now places.now holding.new }
    ensures held { held_in board.now holding.new ≡ best_of (values_of board.now) (with_one (held_in board.now holding.old) x) }
    ensures outcome { IsOutcome (held_in board.now holding.old) x (held_in board.now holding.new) result }
{
    let Some(last) = holding.leaves[board.leaf(x) as usize].last else {
        return Outcome::Refused;
    };
    if last < x {
        return Outcome::Refused;
    }
    swap_at_leaf(board, places, holding, x, last);
    Outcome::Swapped(last)
}

// Offers x to what is held.
fn offer(board: &Board, places: &[usize], holding: &mut Holding, x: u32) -> Outcome
    requires holding { IsHolding board.now places.now holding.old }
    requires contract { x < contract_count board.now }
    requires new { IsFalse (has x (held_in board.now holding.old)) }
    ensures holding { IsHolding board.now places.now holding.new }
    ensures held { held_in board.now holding.new ≡ best_of (values_of board.now) (with_one (held_in board.now holding.old) x) }
    ensures outcome { IsOutcome (held_in board.now holding.old) x (held_in board.now holding.new) result }
{
    let leaf = &holding.leaves[board.leaf(x) as usize];
    if leaf.is_full() {
        return offer_to_full(board, places, holding, x);
    }
    let prospects = walk(board, holding, x);
    match decide(board, prospects, x) {
        Outcome::Kept => {
            hold(board, places, holding, x);
            Outcome::Kept
        }
        Outcome::Refused => Outcome::Refused,
        Outcome::Swapped(z) => {
            release(board, places, holding, z);
            hold(board, places, holding, x);
            Outcome::Swapped(z)
        }
    }
}

#[cfg(test)]
mod tests;

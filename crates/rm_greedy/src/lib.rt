//! The best subset of what is offered on a board, by greedy addition.
#![tactic(auto)]

ghost use Rattle.std.specs.Prelude.{◌≡◌, ◌<◌, ◌≤◌, ℕ, List, [], length, take};
ghost use Rattle.rm_sets.specs.Sets.{IsSetBelow};
ghost use Rattle.rm_market.specs.Board.{contract_count};
ghost use Rattle.rm_market.specs.Best.{IsBest, best_of, values_of};
ghost use Rattle.rm_valuation_laws.specs.Changes.{IsConcaveBoard};
ghost use Rattle.rm_valuation_laws.proofs.BestOf.{concave_choice};
ghost use Rattle.rm_valuation.specs.Counts.{IsMarketBoard};
ghost use Rattle.rm_greedy.specs.Heads.{AreLeavesRanked};

mod addition;
mod growth;
mod heads;
mod marks;

use rm_board::Board;
use rm_choice::{Choice, ChoiceHolder, Room};

/// The choice of the best subset: the feasible set of greatest worth, of equal worth the first in tie order.
///
/// The set grows by the contract of greatest gain, of equal gain the first in tie order, and ends where each further one
/// lowers the worth or doesn't fit (Kojima, Tamura and Yokoo 2018). For each contract that it takes, and once more at the end,
/// a choice looks at one contract of each hospital that is offered any, and each look costs the length of the contract's chain
/// of nodes.
#[derive(Clone, Copy)]
pub struct Greedy<'a> {
    board: &'a Board,
    ghost concave: { IsConcaveBoard board.now },
    ghost leaves: { length board.now.leaves ≡ contract_count board.now },
    ghost ranked: { AreLeavesRanked board.now },
}

/// A holder that holds, after each offer, the best subset of what it held and the offer.
pub type PlainHolder<'a> = ChoiceHolder<Greedy<'a>>;

impl<'a> Greedy<'a> {
    /// The choice on this board of a market. Takes no memory.
    pub fn new(board: &'a Board) -> Greedy<'a>
        requires { IsMarketBoard board.now }
        ensures count { ⟦<Greedy<'a> as Choice>⟧.count result ≡ contract_count board.now }
        ensures nodes { ⟦<Greedy<'a> as Choice>⟧.node_count result ≡ length board.now.nodes }
        ensures chosen { ⟦<Greedy<'a> as Choice>⟧.chosen result ≡ best_of (values_of board.now) }
        ensures best { (X : List ℕ) → IsSetBelow (contract_count board.now) X → IsBest (values_of board.now) X (⟦<Greedy<'a> as Choice>⟧.chosen result X) }
    {
        Greedy { board }
    }
}

impl<'a> Choice for Greedy<'a> {
    ghost count = { λ c. contract_count c.board.now };

    ghost node_count = { λ c. length c.board.now.nodes };

    ghost chosen = { λ c. best_of (values_of c.board.now) };

    ghost lawful = { λ c. concave_choice c.board.now c.concave c.leaves };

    fn contracts(&self) -> u32 {
        self.board.contracts()
    }

    fn nodes(&self) -> u32 {
        self.board.tree().nodes()
    }

    fn choose(&self, offered: &[u32], room: &mut Room) -> usize {
        growth::choose(
            self.board,
            offered,
            &mut room.list,
            &mut room.marks,
            &mut room.counts,
        )
    }
}

#[cfg(test)]
mod tests;

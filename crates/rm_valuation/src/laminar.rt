// The valuation that a board gives.

ghost use Rattle.std.specs.Prelude.{◌≡◌, length};
ghost use Rattle.std.proofs.Common.{subst};
ghost use Rattle.rm_valuation_laws.specs.Changes.{IsConcaveBoard};
ghost use Rattle.rm_valuation_laws.proofs.LaminarExchange.{board_laws};
ghost use Rattle.rm_market.specs.Best.{IsValuation, values_of};
ghost use Rattle.rm_market.specs.Board.{contract_count};
ghost use Rattle.rm_valuation.specs.Counts.{IsMarketBoard};

use rm_board::Board;
use rm_choice::Valuation;

/// The valuation of a board: a set is feasible where it keeps within each node's cap, and its worth is the sum, over the
/// nodes, of as many first steps as the set has contracts there (Kojima, Tamura and Yokoo 2018, the laminar case).
#[derive(Clone, Copy)]
pub struct Laminar<'a> {
    board: &'a Board,
    ghost concave: { IsConcaveBoard board.now },
    ghost leaves: { length board.now.leaves ≡ contract_count board.now },
}

impl<'a> Laminar<'a> {
    /// The valuation of this board of a market.
    pub fn new(board: &'a Board) -> Laminar<'a>
        requires { IsMarketBoard board.now }
        ensures count { ⟦<Laminar<'a> as Valuation>⟧.count result ≡ contract_count board.now }
        ensures values { ⟦<Laminar<'a> as Valuation>⟧.values result ≡ values_of board.now }
    {
        Laminar { board }
    }
}

impl<'a> Valuation for Laminar<'a> {
    ghost count = { λ v. contract_count v.board.now };

    ghost values = { λ v. values_of v.board.now };

    fn contracts(&self) -> u32 {
        self.board.contracts()
    }

    ghost lawful = { λ v. subst (λ n. IsValuation n (values_of v.board.now)) v.leaves (board_laws v.board.now v.concave) };
}

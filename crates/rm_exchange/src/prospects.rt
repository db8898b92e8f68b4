// What an offer may change: its addition, and the best swap for it.

ghost use Rattle.std.specs.Prelude.{◌≡◌, ◌<◌, ◌-ℤ◌, ◌≤ℤ◌, pos, ℕ, List, IfSome, IsTrue, IsFalse};
ghost use Rattle.rm_market.specs.Board.{contract_count, is_feasible};
ghost use Rattle.rm_exchange.specs.Holding.{held_in, IsAllKept};
ghost use Rattle.rm_exchange.specs.Prospects.{greater_swap, IsRated, AreProspects, IsDecided};
ghost use Rattle.rm_sets.specs.Sets.{has};
ghost use Rattle.rm_board.specs.TieKeys.{tie_key};

use crate::holding::{Holding, chain_of, cheapest_at};
use crate::removal::Removal;
use rm_board::Board;
use rm_market::Outcome;

// A held contract whose place an offer may take: its tie key, and what the swap changes in the worth.
#[derive(Clone, Copy)]
pub struct Swap {
    pub contract: u32,
    pub tie: u32,
    pub change: i64,
}

// The best swap for an offer, if there is one, and what its addition changes in the worth, if it fits.
#[derive(Clone, Copy)]
pub struct Prospects {
    pub swap: Option<Swap>,
    pub addition: Option<i64>,
}

// The swap for a removal, where the offer gains so much.
fn rated(gain: i64, removal: Option<Removal>) -> Option<Swap>
    requires low { (pos 0 -ℤ pos 4_400_000_000_000_000_000) ≤ℤ gain }
    requires high { gain ≤ℤ pos 4_400_000_000_000_000_000 }
    requires small { IfSome removal (λ r. ((pos 0 -ℤ pos 4_400_000_000_000_000_000) ≤ℤ r.loss) × (r.loss ≤ℤ pos 4_400_000_000_000_000_000)) }
    ensures { IsRated gain removal result }
{
    let Some(removal) = removal else {
        return None;
    };
    Some(Swap {
        contract: removal.contract,
        tie: removal.tie,
        change: gain - removal.loss,
    })
}

// The swap that changes the worth by more, of equal changes the later in tie order.
fn better(best: Option<Swap>, next: Option<Swap>) -> Option<Swap>
    ensures { result ≡ greater_swap best next }
{
    let Some(old) = best else {
        return next;
    };
    let Some(new) = next else {
        return best;
    };
    if old.change < new.change || (old.change == new.change && old.tie < new.tie) {
        next
    } else {
        best
    }
}

// Walks from the leaf of contract x outwards, up to its first full node.
pub(crate) fn walk(board: &Board, holding: &Holding, x: u32) -> Prospects
    requires contract { x < contract_count board.now }
    requires kept { (places : List ℕ) × IsAllKept board.now places holding.now }
    requires new { IsFalse (has x (held_in board.now holding.now)) }
    requires feasible { IsTrue (is_feasible board.now (held_in board.now holding.now)) }
    ensures { AreProspects board.now (held_in board.now holding.now) x result }
{
    let chain = chain_of(board, x);
    let mut gain = 0;
    let mut swap = None;
    for i in 0..chain.len() {
        let node = chain[i];
        swap = better(swap, rated(gain, cheapest_at(board, holding, node)));
        let Some(step) = holding.nexts[node as usize] else {
            return Prospects {
                swap,
                addition: None,
            };
        };
        gain += step;
    }
    Prospects {
        swap,
        addition: Some(gain),
    }
}

// What an offer of contract x does: an addition that doesn't lower the worth and isn't exceeded by the swap, else a swap that
// raises the worth, or leaves it and comes first in tie order, as the tie keys tell.
pub(crate) fn decide(board: &Board, prospects: Prospects, x: u32) -> Outcome
    requires { x < contract_count board.now }
    ensures { IsDecided prospects (tie_key board.now x) result }
{
    let Some(swap) = prospects.swap else {
        return match prospects.addition {
            Some(gain) if gain >= 0 => Outcome::Kept,
            _ => Outcome::Refused,
        };
    };
    if let Some(gain) = prospects.addition {
        if gain >= 0 && swap.change <= gain {
            return Outcome::Kept;
        }
    }
    if swap.change > 0 || (swap.change == 0 && board.tie_key(x) < swap.tie) {
        return Outcome::Swapped(swap.contract);
    }
    Outcome::Refused
}

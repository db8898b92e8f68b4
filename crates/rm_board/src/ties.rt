// Tie orders, and the place of each contract there.

ghost use Rattle.std.specs.Prelude.{◌≡◌, ◌<◌, ◌==◌, ℕ, length, slice_index, position, Some, IfOk};
ghost use Rattle.rm_market.specs.Board.{pairs_of, IsTieOrder};
ghost use Rattle.rm_board.specs.Rules.{AreKnown, Orders};

use crate::contracts::{Contracts, NoMemory};
use crate::listing::listed_order;
use crate::orders::{by_hospital, by_rank};
use rm_market::{BoardFault, ListedPair};
use std::alloc::Global;

/// The rule by which the contracts of a board stand in tie order: by place in the rank list and then by hospital, by number, or as listed.
#[derive(Clone, Copy)]
pub enum TieRule<'a> {
    ByRank,
    ByHospital,
    Listed(&'a [ListedPair]),
}

/// The contracts in tie order. Of a listed order, the first fault decides: elements count from 1, and a contract that no
/// element names is told by its doctor and its hospital. The other rules have no fault.
pub fn tie_order(
    alloc: Global,
    contracts: &Contracts,
    rule: TieRule<'_>,
) -> Result<Vec<u32>, BoardFault>
    requires { AreKnown (length contracts.now) rule }
    ensures { Orders contracts.now rule.entry result }
{
    match rule {
        TieRule::ByRank => match by_rank(alloc, contracts) {
            Ok(order) => Ok(order),
            Err(_) => Err(BoardFault::NoMemory),
        },
        TieRule::ByHospital => match by_hospital(alloc, contracts) {
            Ok(order) => Ok(order),
            Err(_) => Err(BoardFault::NoMemory),
        },
        TieRule::Listed(pairs) => listed_order(alloc, contracts, pairs),
    }
}

/// The place of each contract in a tie order, counted from 0.
pub fn places_in(alloc: Global, contracts: &Contracts, order: &[u32]) -> Result<Vec<u32>, NoMemory>
    requires { IsTieOrder contracts.now order.now }
    ensures wide { IfOk result (λ places. length places.items ≡ length (pairs_of contracts.now)) }
    ensures places { IfOk result (λ places. (x : ℕ) → x < length (pairs_of contracts.now)
        → position (λ y. y == x) order.now ≡ Some (slice_index places.items x)) }
{
    let mut places = vec![in alloc; 0; contracts.count() as usize]?;
    for place in 0..order.len() {
        places[order[place] as usize] = place as u32;
    }
    Ok(places)
}

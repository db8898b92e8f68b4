// Whether the keys of contracts are found from the rank lists alone.

ghost use Rattle.std.specs.Prelude.{◌≡◌, ◌*◌, ◌<◌, ◌^◌, nat_lt, length, map, fold, max};
ghost use Rattle.rm_market.specs.Board.{IsTieOrder};
ghost use Rattle.rm_board.specs.Rules.{order_of};
ghost use Rattle.rm_board.specs.TieKeys.{rank_key, ascends, is_ranked};

use crate::contracts::Contracts;
use crate::orders::longest_rank;
use crate::ties::TieRule;

// Whether the longest rank list times the number of hospitals is below 2 ^ 32, so that each key by rank is.
fn keys_fit(contracts: &Contracts) -> bool
    ensures { result ≡ nat_lt (fold max 0 (map length contracts.now) * length contracts.now) (2 ^ 32) }
{
    let end = longest_rank(contracts) as u64 * contracts.hospitals() as u64;
    end <= u32::MAX as u64
}

// Whether each contract of a tie order has a smaller key by rank than the next one.
fn ascends(contracts: &Contracts, order: &[u32]) -> bool
    requires order { IsTieOrder contracts.now order.now }
    requires fits { fold max 0 (map length contracts.now) * length contracts.now < 2 ^ 32 }
    ensures { result ≡ ascends (rank_key contracts.now) order.now }
{
    for i in 1..order.len() {
        if contracts.rank_key(order[i - 1]) >= contracts.rank_key(order[i]) {
            return false;
        }
    }
    true
}

// Whether the tie order of a rule goes by place in the rank list and then by hospital, and keys by rank are small enough.
pub fn is_ranked(contracts: &Contracts, order: &[u32], rule: TieRule<'_>) -> bool
    requires order { IsTieOrder contracts.now order.now }
    requires rule { order.now ≡ order_of contracts.now rule }
    ensures { result ≡ is_ranked contracts.now order.now }
{
    if !keys_fit(contracts) {
        return false;
    }
    match rule {
        TieRule::ByRank => true,
        TieRule::ByHospital | TieRule::Listed(_) => ascends(contracts, order),
    }
}

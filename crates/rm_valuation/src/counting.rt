// The counts of a set of contracts.

ghost use Rattle.std.specs.Prelude.{◌≡◌, length, ℕ, List};
ghost use Rattle.rm_sets.specs.Sets.{IsSetBelow};
ghost use Rattle.rm_market.specs.Board.{contract_count};
ghost use Rattle.rm_market.specs.Certificate.{over_cap};
ghost use Rattle.rm_valuation.specs.Counts.{AreCounts};

use crate::{count_in, count_none};
use rm_board::Board;

/// Makes the counts those of this set of contracts, ascending and each once. The counts have one number for each node of the board.
pub fn count_all(board: &Board, counts: &mut [u32], chosen: &[u32])
    requires chosen { IsSetBelow (contract_count board.now) chosen.now }
    requires nodes { length counts.old ≡ length board.now.nodes }
    ensures nodes { length counts.new ≡ length board.now.nodes }
    ensures counts { AreCounts board.now chosen.now counts.new }
{
    count_none(counts);
    for i in 0..chosen.len() {
        count_in(board, counts, chosen[i]);
    }
}

/// The least node over its cap. None exactly where there is none: the set that has these counts is feasible then. The counts have one number for
/// each node, which counts from 0.
pub fn first_over(board: &Board, counts: &[u32]) -> Option<u32>
    requires nodes { length counts.now ≡ length board.now.nodes }
    ensures { (S : List ℕ) → AreCounts board.now S counts.now → result ≡ over_cap board.now S }
{
    for node in 0..board.tree().nodes() {
        if counts[node as usize] > board.steps(node).cap() {
            return Some(node);
        }
    }
    None
}

// One contract in the place of another one.

ghost use Rattle.std.specs.Prelude.{◌≡◌, ◌^◌, ◌<◌, ◌-ℤ◌, ◌<ℤ◌, pos, length, false, ℕ, List};
ghost use Rattle.rm_sets.specs.Sets.{has, IsIn};
ghost use Rattle.rm_market.specs.Board.{contract_count};
ghost use Rattle.rm_valuation.specs.Counts.{AreCounts};
ghost use Rattle.rm_exchange.specs.Counted.{IsChosen, IsTakenOut, IsSwapChange};

use rm_board::Board;
use rm_valuation::{count_out, gain, loss};

// Counts contract z out of the chosen set that has these counts, and says what that loses.
pub(crate) fn take_out(board: &Board, counts: &mut [u32], z: u32) -> i64
    requires contract { z < contract_count board.now }
    requires nodes { length counts.old ≡ length board.now.nodes }
    ensures nodes { length counts.new ≡ length board.now.nodes }
    ensures low { (pos 0 -ℤ pos (2 ^ 62)) <ℤ result }
    ensures high { result <ℤ pos (2 ^ 62) }
    ensures taken { (S : List ℕ) → IsChosen board.now S → IsIn z S → AreCounts board.now S counts.old → IsTakenOut board.now S z counts.new result }
{
    let loss = loss(board, counts, z);
    count_out(board, counts, z);
    loss
}

// The change of worth by contract x in the place of one that was taken out with this loss. None exactly where that isn't
// feasible.
pub(crate) fn swap_change(board: &Board, counts: &[u32], x: u32, loss: i64) -> Option<i64>
    requires contract { x < contract_count board.now }
    requires nodes { length counts.now ≡ length board.now.nodes }
    requires low { (pos 0 -ℤ pos (2 ^ 62)) <ℤ loss }
    requires high { loss <ℤ pos (2 ^ 62) }
    ensures { (S : List ℕ) (z : ℕ) → IsTakenOut board.now S z counts.now loss → has x S ≡ false → IsSwapChange board.now S x z result }
{
    let Some(gain) = gain(board, counts, x) else {
        return None;
    };
    Some(gain - loss)
}

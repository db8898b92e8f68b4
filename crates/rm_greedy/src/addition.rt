// The best single addition to a set.

ghost use Rattle.std.specs.Prelude.{◌≡◌, ◌↔◌, ◌⊎◌, ◌<◌, ◌≤◌, ◌<ℤ◌, ◌==◌, ◌++◌, ◌∷◌, [], ℕ, List, Option, length, slice_index, IsTrue, IsFalse};
ghost use Rattle.rm_sets.specs.Sets.{has, IsSetBelow};
ghost use Rattle.rm_market.specs.Board.{Board as MarketBoard, contract_count, is_feasible};
ghost use Rattle.rm_valuation.specs.Counts.{AreCounts};
ghost use Rattle.rm_greedy.specs.Additions.{AreMarks, ComesFirst, IsCandidate, IsFirstOf};
ghost use Rattle.rm_greedy.specs.Heads.{AreHeads, AreLeavesRanked};

use crate::heads::first_open;
use rm_board::Board;
use rm_valuation::gain;

// A contract that may be added: what its addition gains, and its place in tie order.
#[derive(Clone, Copy)]
pub struct Addition {
    pub contract: u32,
    pub gain: i64,
    pub place: u32,
}

// The addition of contract x, unless it is in the set already, doesn't fit, or lowers the worth.
fn candidate(board: &Board, counts: &[u32], marks: &[u32], x: u32) -> Option<Addition>
    requires contract { x < contract_count board.now }
    requires nodes { length counts.now ≡ length board.now.nodes }
    requires marks { x < length marks.now }
    ensures { (S : List ℕ) → IsTrue (is_feasible board.now S) → AreCounts board.now S counts.now → has x S ≡ (slice_index marks.now x == 1)
        → IsCandidate board.now S x result }
{
    if marks[x as usize] == 1 {
        return None;
    }
    let Some(gain) = gain(board, counts, x) else {
        return None;
    };
    if gain < 0 {
        return None;
    }
    let place = board.tie(x);
    Some(Addition {
        contract: x,
        gain,
        place,
    })
}

// Whether an addition gains more than another one, or as much and stands first in tie order.
fn comes_first(next: Addition, best: Addition) -> bool
    ensures { IsTrue result ↔ ComesFirst next best }
{
    if next.gain == best.gain {
        next.place < best.place
    } else {
        next.gain > best.gain
    }
}

// The first of the best addition so far and of one more.
fn better(best: Option<Addition>, next: Option<Addition>) -> Option<Addition>
    ensures { (b : MarketBoard) (S Y : List ℕ) (x : ℕ) → IsFirstOf b S Y best → IsCandidate b S x next → IsFirstOf b S (Y ++ x ∷ []) result }
{
    let Some(after) = next else {
        return best;
    };
    let Some(before) = best else {
        return next;
    };
    if comes_first(after, before) {
        return next;
    }
    best
}

// The addition of greatest gain among the offered contracts, of equal gain the first in tie order. None where each of them is
// in the set already, doesn't fit, or lowers the worth. Only the first contract of each hospital that isn't in the set is looked
// at, since the others gain as much and stand later in tie order; the heads are moved on to these.
pub(crate) fn best_addition(
    board: &Board,
    counts: &[u32],
    marks: &[u32],
    offered: &[u32],
    heads: &mut [u32],
) -> Option<Addition>
    requires ranked { AreLeavesRanked board.now }
    requires offered { IsSetBelow (contract_count board.now) offered.now }
    requires nodes { length counts.now ≡ length board.now.nodes }
    requires marks { contract_count board.now ≤ length marks.now }
    requires heads { (r : ℕ) → r < length heads.old → slice_index heads.old r < length offered.now }
    ensures heads { (S : List ℕ) → AreMarks offered.now S marks.now → AreHeads board.now offered.now S heads.old → AreHeads board.now offered.now S heads.new }
    ensures first { (S : List ℕ) → IsTrue (is_feasible board.now S) → AreCounts board.now S counts.now → AreMarks offered.now S marks.now
        → AreHeads board.now offered.now S heads.old → IsFirstOf board.now S offered.now result }
{
    let contracts = board.contracts();
    prove!(offered.len() <= contracts as usize);
    let mut best = None;
    for i in 0..heads.len() {
        let place = first_open(board, offered, marks, heads[i] as usize);
        heads[i] = place as u32;
        best = better(best, candidate(board, counts, marks, offered[place]));
    }
    best
}

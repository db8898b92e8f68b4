// Greedy addition, from the empty set to the best subset.

ghost use Rattle.std.specs.Prelude.{◌≡◌, ◌≤◌, [], length, take};
ghost use Rattle.rm_sets.specs.Sets.{IsSetBelow};
ghost use Rattle.rm_market.specs.Board.{contract_count};
ghost use Rattle.rm_market.specs.Best.{IsValuation, best_of, values_of};
ghost use Rattle.rm_valuation.specs.Counts.{AreCounts};
ghost use Rattle.rm_greedy.specs.Additions.{AreMarks};
ghost use Rattle.rm_greedy.specs.Heads.{AreHeads, AreLeavesRanked};

use crate::addition::best_addition;
use crate::heads::write_heads;
use crate::marks::{clear, write_marked};
use rm_board::Board;
use rm_valuation::{count_in, count_none};

// From the empty set, marks the best subset of the offered contracts.
fn grow(board: &Board, offered: &[u32], heads: &mut [u32], marks: &mut [u32], counts: &mut [u32])
    requires valuation { IsValuation (contract_count board.now) (values_of board.now) }
    requires ranked { AreLeavesRanked board.now }
    requires offered { IsSetBelow (contract_count board.now) offered.now }
    requires space { contract_count board.now ≤ length marks.old }
    requires nodes { length counts.old ≡ length board.now.nodes }
    requires marks { AreMarks offered.now [] marks.old }
    requires counts { AreCounts board.now [] counts.old }
    requires heads { AreHeads board.now offered.now [] heads.old }
    ensures space { length marks.new ≡ length marks.old }
    ensures nodes { length counts.new ≡ length counts.old }
    ensures best { AreMarks offered.now (best_of (values_of board.now) offered.now) marks.new }
{
    for i in 0..offered.len() {
        let Some(next) = best_addition(board, counts, marks, offered, heads) else {
            return;
        };
        count_in(board, counts, next.contract);
        marks[next.contract as usize] = 1;
    }
}

// Writes the best subset of the offered contracts to the front of the list, and says how many there are.
pub(crate) fn choose(
    board: &Board,
    offered: &[u32],
    list: &mut [u32],
    marks: &mut [u32],
    counts: &mut [u32],
) -> usize
    requires valuation { IsValuation (contract_count board.now) (values_of board.now) }
    requires ranked { AreLeavesRanked board.now }
    requires offered { IsSetBelow (contract_count board.now) offered.now }
    requires list { contract_count board.now ≤ length list.old }
    requires marks { contract_count board.now ≤ length marks.old }
    requires nodes { length board.now.nodes ≤ length counts.old }
    ensures list { length list.new ≡ length list.old }
    ensures marks { length marks.new ≡ length marks.old }
    ensures nodes { length counts.new ≡ length counts.old }
    ensures within { result ≤ length list.new }
    ensures chosen { take result list.new ≡ best_of (values_of board.now) offered.now }
{
    let nodes = board.tree().nodes() as usize;
    let counts = &mut counts[..nodes];
    clear(marks, offered);
    count_none(counts);
    let heads = write_heads(board, offered, list);
    grow(board, offered, &mut list[..heads], marks, counts);
    write_marked(list, marks, offered)
}

// Where to look for the next contract: one place in the offered list for each hospital.

ghost use Rattle.std.specs.Prelude.{◌≡◌, ◌↔◌, ◌<◌, ◌≤◌, [], length, take, IsTrue};
ghost use Rattle.rm_sets.specs.Sets.{IsSetBelow};
ghost use Rattle.rm_market.specs.Board.{contract_count};
ghost use Rattle.rm_greedy.specs.Heads.{AreHeads, GoesOn, IsFirstOpen};

use rm_board::Board;

// Whether the contract at this place and the next one are of the same hospital.
fn goes_on(board: &Board, offered: &[u32], place: usize) -> bool
    requires offered { IsSetBelow (contract_count board.now) offered.now }
    requires place { place < length offered.now }
    ensures { IsTrue result ↔ GoesOn board.now offered.now place }
{
    let next = place + 1;
    if next >= offered.len() {
        return false;
    }
    board.leaf(offered[next]) == board.leaf(offered[place])
}

// Writes the place of each hospital's first contract to the front of the heads, and says how many there are.
pub(crate) fn write_heads(board: &Board, offered: &[u32], heads: &mut [u32]) -> usize
    requires offered { IsSetBelow (contract_count board.now) offered.now }
    requires space { length offered.now ≤ length heads.old }
    ensures length { length heads.new ≡ length heads.old }
    ensures within { result ≤ length heads.new }
    ensures heads { AreHeads board.now offered.now [] (take result heads.new) }
{
    let contracts = board.contracts();
    prove!(offered.len() <= contracts as usize);
    let mut count = 0;
    for i in 0..offered.len() {
        if i > 0 && goes_on(board, offered, i - 1) {
            continue;
        }
        heads[count] = i as u32;
        count += 1;
    }
    count
}

// From this place on, the place of the hospital's first contract that isn't marked, or of its last one.
pub(crate) fn first_open(board: &Board, offered: &[u32], marks: &[u32], from: usize) -> usize
    requires offered { IsSetBelow (contract_count board.now) offered.now }
    requires marks { contract_count board.now ≤ length marks.now }
    requires from { from < length offered.now }
    ensures { IsFirstOpen board.now offered.now marks.now from result }
{
    let mut place = from;
    while marks[offered[place] as usize] == 1 && goes_on(board, offered, place) {
        place += 1;
    }
    place
}

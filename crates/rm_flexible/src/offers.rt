// The offered contracts, counted by hospital.

ghost use Rattle.std.specs.Prelude.{◌≡◌, ◌+◌, ◌<◌, ◌≤◌, ℕ, length, filter, take, nat_lt, slice_index, if◌then◌else◌};
ghost use Rattle.rm_sets.specs.Sets.{IsIn, IsSetBelow};
ghost use Rattle.rm_market.specs.Board.{contract_count, hospital_of};
ghost use Rattle.rm_market.specs.Flexible.{at_hospital, ranked_above};
ghost use Rattle.rm_flexible_laws.specs.Region.{IsRegion};
ghost use Rattle.rm_flexible.specs.Counts.{AreBelow, has_hospital};

use crate::region::Region;
use rm_board::Board;

// Sets the counts of a region's hospitals to 0.
pub(crate) fn clear(counts: &mut [u32], region: &Region)
    requires { AreBelow (length counts.old) region.now }
    ensures length { length counts.new ≡ length counts.old }
    ensures lawful { IsRegion region.now }
    ensures none { (h : ℕ) → slice_index counts.new h ≡ (if has_hospital region.now h then 0 else slice_index counts.old h) }
{
    let seats = region.seats();
    for i in 0..seats.len() {
        let seat = seats[i];
        counts[seat.hospital as usize] = 0;
    }
}

// Counts the offered contracts of each hospital. The mark of each of them says how many of its hospital's there are from it on.
pub(crate) fn count_offers(board: &Board, offered: &[u32], marks: &mut [u32], counts: &mut [u32])
    requires offered { IsSetBelow (contract_count board.now) offered.now }
    requires space { contract_count board.now ≤ length marks.old }
    requires hospitals { length board.now.ranks ≤ length counts.old }
    requires none { (x : ℕ) → IsIn x offered.now → slice_index counts.old (hospital_of board.now x) ≡ 0 }
    ensures marks_length { length marks.new ≡ length marks.old }
    ensures counts_length { length counts.new ≡ length counts.old }
    ensures counts { (h : ℕ) → slice_index counts.new h ≡ slice_index counts.old h + length (at_hospital board.now h offered.now) }
    ensures marks { (x : ℕ) → IsIn x offered.now → slice_index marks.new x + ranked_above board.now offered.now x
        ≡ length (at_hospital board.now (hospital_of board.now x) offered.now) }
{
    let contracts = board.contracts();
    prove!(offered.len() <= contracts as usize);
    let mut place = offered.len();
    while place > 0 {
        place -= 1;
        let x = offered[place];
        let hospital = board.hospital(x) as usize;
        counts[hospital] += 1;
        marks[x as usize] = counts[hospital];
    }
}

// Writes the offered contracts but the last of each hospital, of which as many are left as its count says, to the front of the
// list, and says how many are written.
pub(crate) fn write_kept(
    board: &Board,
    offered: &[u32],
    list: &mut [u32],
    marks: &[u32],
    counts: &[u32],
) -> usize
    requires offered { IsSetBelow (contract_count board.now) offered.now }
    requires list { contract_count board.now ≤ length list.old }
    requires marks { contract_count board.now ≤ length marks.now }
    requires hospitals { length board.now.ranks ≤ length counts.now }
    ensures length { length list.new ≡ length list.old }
    ensures within { result ≤ length list.new }
    ensures written { take result list.new ≡ filter (λ x. nat_lt (slice_index counts.now (hospital_of board.now x)) (slice_index marks.now x)) offered.now }
{
    let mut count = 0;
    for i in 0..offered.len() {
        let x = offered[i];
        if counts[board.hospital(x) as usize] < marks[x as usize] {
            list[count] = x;
            count += 1;
        }
    }
    count
}

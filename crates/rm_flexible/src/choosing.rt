// What one region keeps of its contracts, and what all regions keep together.

ghost use Rattle.std.specs.Prelude.{◌≡◌, ◌<◌, ◌≤◌, ℕ, List, length, take, All, IsTrue, slice_index};
ghost use Rattle.std.specs.List.{list_any};
ghost use Rattle.rm_sets.specs.Sets.{IsSetBelow};
ghost use Rattle.rm_market.specs.Board.{Board as MarketBoard, contract_count, hospital_of};
ghost use Rattle.rm_market.specs.Flexible.{flexible, is_seat_of, kept};
ghost use Rattle.rm_flexible_laws.specs.Region.{IsRegions, region_at, seat_at};
ghost use Rattle.rm_flexible.specs.Counts.{AreBelow, AreCounted, AreKept};

use crate::offers::{clear, count_offers, write_kept};
use crate::region::Region;
use crate::turns::take_kept;
use rm_board::Board;

// The number of nodes, of which each hospital is one.
fn count_nodes(board: &Board) -> usize
    ensures nodes { result ≡ length board.now.nodes }
    ensures hospitals { length board.now.ranks ≤ result }
{
    board.tree().nodes() as usize
}

// Writes what the region keeps of the applicants to the front of the list, and says how many there are.
pub(crate) fn pick(
    board: &Board,
    region: &Region,
    applicants: &[u32],
    list: &mut [u32],
    marks: &mut [u32],
    counts: &mut [u32],
) -> usize
    requires set { IsSetBelow (contract_count board.now) applicants.now }
    requires applicants { All (λ x. IsTrue (list_any (is_seat_of board.now x) region.now.seats)) applicants.now }
    requires hospitals { AreBelow (length board.now.ranks) region.now }
    requires list { contract_count board.now ≤ length list.old }
    requires marks { contract_count board.now ≤ length marks.old }
    requires nodes { length board.now.nodes ≤ length counts.old }
    ensures list { length list.new ≡ length list.old }
    ensures marks { length marks.new ≡ length marks.old }
    ensures nodes { length counts.new ≡ length counts.old }
    ensures within { result ≤ length list.new }
    ensures chosen { take result list.new ≡ kept board.now region.now applicants.now }
{
    let nodes = count_nodes(board);
    prove!(nodes <= counts.len());
    clear(counts, region);
    count_offers(board, applicants, marks, counts);
    take_kept(region, counts);
    write_kept(board, applicants, list, marks, counts)
}

// Sets the counts of the hospitals of all regions to 0.
fn clear_all(counts: &mut [u32], regions: &[Region])
    requires { All (AreBelow (length counts.old)) regions.now }
    ensures length { length counts.new ≡ length counts.old }
    ensures none { (i j : ℕ) → i < length regions.now → j < length (region_at regions.now i).seats
        → slice_index counts.new (seat_at (region_at regions.now i) j).hospital ≡ 0 }
{
    for i in 0..regions.len() {
        let region = &regions[i];
        clear(counts, region);
    }
}

// Takes of the contracts that are counted what each region keeps of its own.
fn take_all(counts: &mut [u32], regions: &[Region])
    requires { All (AreBelow (length counts.old)) regions.now }
    ensures length { length counts.new ≡ length counts.old }
    ensures kept { (b : MarketBoard) (X : List ℕ) → IsRegions (contract_count b) (hospital_of b) regions.now → IsSetBelow (contract_count b) X
        → AreCounted b regions.now X counts.old → AreKept b regions.now X counts.new }
{
    for i in 0..regions.len() {
        let region = &regions[i];
        take_kept(region, counts);
    }
}

// Writes what the regions keep of the offered contracts to the front of the list, and says how many there are.
pub(crate) fn choose(
    board: &Board,
    regions: &[Region],
    offered: &[u32],
    list: &mut [u32],
    marks: &mut [u32],
    counts: &mut [u32],
) -> usize
    requires lawful { IsRegions (contract_count board.now) (hospital_of board.now) regions.now }
    requires hospitals { All (AreBelow (length board.now.ranks)) regions.now }
    requires set { IsSetBelow (contract_count board.now) offered.now }
    requires list { contract_count board.now ≤ length list.old }
    requires marks { contract_count board.now ≤ length marks.old }
    requires nodes { length board.now.nodes ≤ length counts.old }
    ensures list { length list.new ≡ length list.old }
    ensures marks { length marks.new ≡ length marks.old }
    ensures nodes { length counts.new ≡ length counts.old }
    ensures within { result ≤ length list.new }
    ensures chosen { take result list.new ≡ flexible board.now regions.now offered.now }
{
    let nodes = count_nodes(board);
    prove!(nodes <= counts.len());
    clear_all(counts, regions);
    count_offers(board, offered, marks, counts);
    take_all(counts, regions);
    write_kept(board, offered, list, marks, counts)
}

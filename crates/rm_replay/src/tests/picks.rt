// What the region of a folder keeps of its applicants.

ghost use Rattle.std.specs.Prelude.{◌≡◌, ◌<◌, ◌==◌, All, IsTrue, length};
ghost use Rattle.std.specs.List.{list_any};
ghost use Rattle.rm_choice.specs.Size.{Fits};
ghost use Rattle.rm_flexible.specs.Counts.{AreBelow};
ghost use Rattle.rm_market.specs.Board.{contract_count};
ghost use Rattle.rm_case.specs.Regions.{AreApplicants};

use rm_base::NoMemory;
use rm_board::Board;
use rm_case::Case;
use rm_choice::Room;
use rm_flexible::{Region, pick};
use rm_sample_folders::{TARGET_OF_TWO, case_of};
use std::alloc::Global;
use std::test::Fail;

// Whether hospital h is one of the region's.
fn has_hospital(region: &Region, h: u32) -> bool
    ensures { result ≡ list_any (λ s. s.hospital == h) region.now.seats }
{
    let seats = region.seats();
    for i in 0..seats.len() {
        let seat = seats[i];
        if seat.hospital == h {
            return true;
        }
    }
    false
}

// Whether contracts are a region's applicants: strictly ascending, and each at one of its hospitals.
fn are_applicants(board: &Board, region: &Region, contracts: &[u32]) -> bool
    ensures { IsTrue result → AreApplicants board.now region.now contracts.now }
{
    for i in 0..contracts.len() {
        let x = contracts[i];
        if x >= board.contracts() || (i > 0 && contracts[i - 1] >= x) {
            return false;
        }
        if !has_hospital(region, board.hospital(x)) {
            return false;
        }
    }
    true
}

// Whether a region keeps these of the applicants.
fn keeps(board: &Board, region: &Region, applicants: &[u32], kept: &[u32], room: &mut Room) -> bool
    requires below { AreBelow (length board.now.ranks) region.now }
    requires fits { Fits (contract_count board.now) (length board.now.nodes) room.old }
{
    if !are_applicants(board, region, applicants) {
        return false;
    }
    let count = pick(board, region, applicants, room);
    let picked: &[u32] = &room.list[..count];
    picked == kept
}

// Whether the first region of a case keeps these of the applicants.
fn case_keeps(
    alloc: Global,
    case: &Case,
    applicants: &[u32],
    kept: &[u32],
) -> Result<bool, NoMemory> {
    let board = case.board();
    let regions = case.regions(alloc)?;
    if regions.is_empty() {
        return Ok(false);
    }
    let mut room = Room::new(alloc, board.contracts(), board.tree().nodes())?;
    Ok(keeps(board, &regions[0], applicants, kept, &mut room))
}

// Whether targets come before turns: of all contracts the best of H1 is kept, and the two best of H2. False where memory is
// wanting.
fn holds(alloc: Global) -> bool {
    match case_of(alloc, &TARGET_OF_TWO) {
        Ok(case) => matches!(
            case_keeps(alloc, &case, &[0, 1, 2, 3, 4, 5], &[0, 3, 4]),
            Ok(true)
        ),
        Err(_) => false,
    }
}

#[test]
fn targets_come_before_turns(rt: HostRuntime) -> Result<(), Fail> {
    assert!(rt; holds(rt.alloc()));
    Ok(())
}

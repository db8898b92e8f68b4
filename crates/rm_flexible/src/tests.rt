// What a region of two hospitals keeps, and what offers to it do.

ghost use Rattle.std.specs.Prelude.{◌≡◌, ◌<◌, ◌≤◌, ℕ, [], ◌∷◌, All, IfOk, IfSome, IsSome, IsTrue, length};
ghost use Rattle.std.specs.List.{sum_by};
ghost use Rattle.rm_market.specs.Board.{contract_count};
ghost use Rattle.rm_choice.specs.Size.{Fits};
ghost use Rattle.rm_flexible_laws.specs.Region.{IsRegion};
ghost use Rattle.rm_flexible.specs.Counts.{AreBelow, has_hospital};

use super::*;
use rm_board::TieRule;
use rm_choice::{ChoiceHolder, Holder, Outcome};
use rm_laminar::Tree;
use rm_ranks::{Lists, ListsBuilder};
use rm_samples::is_set;
use rm_steps::Steps;
use std::alloc::{AllocError, Global};
use std::test::Fail;

// Writes the rank list of one of two hospitals.
fn push_rank(builder: &mut ListsBuilder, hospital: u32, doctors: &[u32]) -> Result<(), AllocError>
    requires hospital { hospital < 2 }
    requires two { length builder.old.lists ≡ 2 }
    requires items { builder.old.items ≡ 6 }
    requires limit { builder.old.limit ≡ 10 }
    ensures two { length builder.new.lists ≡ 2 }
    ensures items { builder.new.items ≡ 6 }
    ensures limit { builder.new.limit ≡ 10 }
{
    let Ok(()) = builder.row(hospital, 1) else {
        return Err(AllocError);
    };
    for i in 0..doctors.len() {
        let doctor = doctors[i];
        if doctor >= 6 {
            return Err(AllocError);
        }
        let Ok(()) = builder.push(doctor) else {
            return Err(AllocError);
        };
    }
    Ok(())
}

// The rank lists of two hospitals.
fn two_ranks(alloc: Global, ranks: [&[u32]; 2]) -> Result<Lists, AllocError>
    ensures few { IfOk result (λ ranks. sum_by length ranks ≤ 10) }
    ensures two { IfOk result (λ ranks. length ranks ≡ 2) }
{
    let mut builder = ListsBuilder::new(alloc, 2, 6, 10)?;
    push_rank(&mut builder, 0, ranks[0])?;
    push_rank(&mut builder, 1, ranks[1])?;
    builder.finish(alloc)
}

// No steps for each of two nodes.
fn no_steps(alloc: Global) -> Result<Vec<Steps>, AllocError>
    ensures { IfOk result (λ steps. length steps.items ≡ 2) }
{
    let Ok(first) = Steps::check(alloc, &[]) else {
        return Err(AllocError);
    };
    let Ok(second) = Steps::check(alloc, &[]) else {
        return Err(AllocError);
    };
    let mut steps = Vec::new(alloc);
    steps.push(first)?;
    steps.push(second)?;
    Ok(steps)
}

// The tree of two hospitals.
fn two_nodes(alloc: Global) -> Result<Tree, AllocError>
    ensures hospitals { IfOk result (λ t. t.hospitals ≡ 2) }
{
    let groups = Vec::new(alloc);
    let Ok(tree) = Tree::build(alloc, 2, &groups) else {
        return Err(AllocError);
    };
    Ok(tree)
}

// The board of two hospitals.
fn two_hospitals(alloc: Global, ranks: [&[u32]; 2]) -> Result<Board, AllocError>
    ensures { IfOk result (λ board. length board.ranks ≡ 2) }
{
    let ranks = two_ranks(alloc, ranks)?;
    let tree = two_nodes(alloc)?;
    let steps = no_steps(alloc)?;
    if tree.nodes() != 2 {
        return Err(AllocError);
    }
    let Ok(board) = Board::build(alloc, &ranks, tree, steps, TieRule::ByRank) else {
        return Err(AllocError);
    };
    Ok(board)
}

// The region of two hospitals with these seats. None where the seats are no region.
fn two_seats(alloc: Global, cap: u32, first: Seat, second: Seat) -> Result<Region, AllocError>
    ensures below { IfOk result (AreBelow 2) }
    ensures lawful { IfOk result IsRegion }
    ensures all { IfOk result (λ r. (h : ℕ) → h < 2 → IsTrue (has_hospital r h)) }
{
    if first.hospital > 1 || second.hospital != 1 - first.hospital {
        return Err(AllocError);
    }
    if first.target > first.capacity || second.target > second.capacity {
        return Err(AllocError);
    }
    if first.target as u64 + second.target as u64 > cap as u64 {
        return Err(AllocError);
    }
    let mut seats = Vec::new(alloc);
    seats.push(first)?;
    seats.push(second)?;
    Ok(Region::new(cap, seats))
}

// Whether the region of two hospitals keeps these of the applicants.
fn keeps(board: &Board, region: &Region, applicants: &[u32], kept: &[u32], room: &mut Room) -> bool
    requires two { length board.now.ranks ≡ 2 }
    requires below { AreBelow 2 region.now }
    requires all { (h : ℕ) → h < 2 → IsTrue (has_hospital region.now h) }
    requires fits { Fits (contract_count board.now) (length board.now.nodes) room.old }
{
    if !is_set(board.contracts(), applicants) {
        return false;
    }
    let count = pick(board, region, applicants, room);
    let picked: &[u32] = &room.list[..count];
    picked == kept
}

// The rank lists of two hospitals, the hospitals in the order of turns with their targets and capacities, the region's cap, the
// applicants, and those of them that are kept. The contracts of hospital 0 come first.
#[derive(Clone, Copy)]
struct Row {
    name: &'static str,
    ranks: [&'static [u32]; 2],
    order: [u32; 2],
    targets: [u32; 2],
    capacities: [u32; 2],
    cap: u32,
    applicants: &'static [u32],
    kept: &'static [u32],
}

// A hospital of a region.
fn seat(hospital: u32, target: u32, capacity: u32) -> Seat
    ensures { result ≡ record { hospital = hospital; target = target; capacity = capacity } }
{
    Seat {
        hospital,
        target,
        capacity,
    }
}

const ROWS: [Row; 6] = [
    Row {
        name: "targets come before turns",
        ranks: [&[0, 1, 2], &[3, 4, 5]],
        order: [0, 1],
        targets: [0, 2],
        capacities: [3, 3],
        cap: 3,
        applicants: &[0, 1, 2, 3, 4, 5],
        kept: &[0, 3, 4],
    },
    Row {
        name: "the first in the order takes the last place",
        ranks: [&[0, 1, 2], &[3, 4, 5]],
        order: [1, 0],
        targets: [0, 0],
        capacities: [3, 3],
        cap: 3,
        applicants: &[0, 1, 2, 3, 4, 5],
        kept: &[0, 3, 4],
    },
    Row {
        name: "a full hospital takes none",
        ranks: [&[0, 1, 2], &[3, 4, 5]],
        order: [0, 1],
        targets: [1, 0],
        capacities: [1, 3],
        cap: 5,
        applicants: &[0, 1, 2, 3, 4, 5],
        kept: &[0, 3, 4, 5],
    },
    Row {
        name: "places of a short hospital go to the other",
        ranks: [&[0, 1, 2], &[3, 4, 5]],
        order: [0, 1],
        targets: [2, 0],
        capacities: [3, 3],
        cap: 3,
        applicants: &[1, 4, 5],
        kept: &[1, 4, 5],
    },
    Row {
        name: "a cap of 0",
        ranks: [&[0, 1, 2], &[3, 4, 5]],
        order: [0, 1],
        targets: [0, 0],
        capacities: [3, 3],
        cap: 0,
        applicants: &[0, 4],
        kept: &[],
    },
    Row {
        name: "no applicants, and a hospital without a rank list",
        ranks: [&[], &[3, 4, 5]],
        order: [0, 1],
        targets: [1, 1],
        capacities: [3, 3],
        cap: 2,
        applicants: &[],
        kept: &[],
    },
];

// Whether what is kept in a row is as wanted.
fn holds(alloc: Global, row: &Row) -> Result<bool, AllocError> {
    let board = two_hospitals(alloc, row.ranks)?;
    let first = seat(row.order[0], row.targets[0], row.capacities[0]);
    let second = seat(row.order[1], row.targets[1], row.capacities[1]);
    let region = two_seats(alloc, row.cap, first, second)?;
    let mut room = Room::new(alloc, board.contracts(), board.tree().nodes())?;
    Ok(keeps(&board, &region, row.applicants, row.kept, &mut room))
}

#[test]
fn keeps_rows(rt: HostRuntime) -> Result<(), Fail> {
    for row in &ROWS {
        let name = row.name;
        assert!(rt; holds(rt.alloc(), row)?, "{name}");
    }
    Ok(())
}

// The choice of one region of both hospitals.
fn one_region<'a>(board: &'a Board, regions: &'a [Region]) -> Flexible<'a>
    requires two { length board.now.ranks ≡ 2 }
    requires one { length regions.now ≡ 1 }
    requires lawful { All IsRegion regions.now }
    requires below { All (AreBelow 2) regions.now }
    requires all { All (λ r. (h : ℕ) → h < 2 → IsTrue (has_hospital r h)) regions.now }
{
    Flexible::new(board, regions)
}

// What an offer of x does. None where there is no such contract, or it is held.
fn offered<H: Holder>(holder: &mut H, x: u32) -> Option<Outcome> {
    if x >= holder.contracts() || holder.holds(x) {
        return None;
    }
    Some(holder.offer(x))
}

#[test]
fn the_first_hospital_takes_the_one_place(rt: HostRuntime) -> Result<(), Fail> {
    let board = two_hospitals(rt.alloc(), [&[0, 1], &[0]])?;
    let region = two_seats(rt.alloc(), 1, seat(0, 0, 1), seat(1, 0, 1))?;
    let regions = [region];
    let mut holder = ChoiceHolder::open(rt.alloc(), one_region(&board, &regions))?;
    assert!(rt; offered(&mut holder, 2) == Some(Outcome::Kept));
    assert!(rt; offered(&mut holder, 1) == Some(Outcome::Swapped(2)));
    assert!(rt; offered(&mut holder, 0) == Some(Outcome::Swapped(1)));
    assert!(rt; offered(&mut holder, 2) == Some(Outcome::Refused));
    Ok(())
}

//! The choice of regions by the flexible procedure.
#![tactic(auto)]

ghost use Rattle.std.specs.Prelude.{◌≡◌, ◌<◌, ◌≤◌, ℕ, List, All, IsTrue, length, take};
ghost use Rattle.std.specs.List.{list_any};
ghost use Rattle.rm_sets.specs.Sets.{IsSetBelow};
ghost use Rattle.rm_market.specs.Best.{IsChoice};
ghost use Rattle.rm_market.specs.Board.{contract_count, hospital_of};
ghost use Rattle.rm_market.specs.Flexible.{flexible, is_seat_of, kept};
ghost use Rattle.rm_choice.specs.Size.{Fits, IsAsLarge};
ghost use Rattle.rm_flexible_laws.specs.Region.{IsRegions, region_at};
ghost use Rattle.rm_flexible.specs.Counts.{AreBelow, has_hospital};
ghost use Rattle.rm_flexible.specs.Places.{AreRegions, region_of, found_within};

mod choosing;
mod offers;
mod region;
mod turns;

pub use region::{Region, Seat};
use rm_board::Board;
use rm_choice::{Choice, Parts, Room};

/// Writes what one region keeps of the applicants to the front of the room's list, ascending, and says how many there are. The
/// applicants are contracts at the region's hospitals, strictly ascending. Takes no memory.
///
/// First each hospital keeps its best applicants, up to its target. Then the hospitals take turns in the region's order: at its
/// turn a hospital with a seat left keeps its best applicant whom it doesn't keep yet, as long as the region keeps fewer than
/// its cap. The cost is the number of the applicants and of the region's hospitals, and one look at each hospital in each round
/// of turns; a round in which no hospital takes anything is the last.
pub fn pick(board: &Board, region: &Region, applicants: &[u32], room: &mut Room) -> usize
    requires set { IsSetBelow (contract_count board.now) applicants.now }
    requires applicants { All (λ x. IsTrue (list_any (is_seat_of board.now x) region.now.seats)) applicants.now }
    requires hospitals { AreBelow (length board.now.ranks) region.now }
    requires fits { Fits (contract_count board.now) (length board.now.nodes) room.old }
    ensures chosen { take result room.new.list ≡ kept board.now region.now applicants.now }
    ensures within { result ≤ length room.new.list }
    ensures room { IsAsLarge room.old room.new }
{
    choosing::pick(
        board,
        region,
        applicants,
        &mut room.list,
        &mut room.marks,
        &mut room.counts,
    )
}

/// The choice of regions: each keeps of its own contracts what `pick` keeps of them.
///
/// It reads targets, capacities, caps and the order of turns, and neither the steps of the board nor its tie order. A choice
/// costs the number of the offered contracts and of the hospitals, and one look at each hospital of a region in each of its
/// rounds of turns.
#[derive(Clone, Copy)]
pub struct Flexible<'a> {
    board: &'a Board,
    regions: &'a [Region],
    ghost lawful: { IsChoice (contract_count board.now) (flexible board.now regions.now) },
    ghost places: { AreRegions (contract_count board.now) (hospital_of board.now) regions.now },
    ghost hospitals: { All (AreBelow (length board.now.ranks)) regions.now },
}

impl<'a> Flexible<'a> {
    /// The choice of these regions on this board. Each contract's hospital stands in exactly one of them, and each of their
    /// hospitals is one of the board's. Takes no memory.
    pub fn new(board: &'a Board, regions: &'a [Region]) -> Flexible<'a>
        requires lawful { IsRegions (contract_count board.now) (hospital_of board.now) regions.now }
        requires hospitals { All (AreBelow (length board.now.ranks)) regions.now }
        ensures count { ⟦<Flexible<'a> as Choice>⟧.count result ≡ contract_count board.now }
        ensures nodes { ⟦<Flexible<'a> as Choice>⟧.node_count result ≡ length board.now.nodes }
        ensures chosen { ⟦<Flexible<'a> as Choice>⟧.chosen result ≡ flexible board.now regions.now }
    {
        Flexible { board, regions }
    }
}

impl<'a> Parts for Flexible<'a> {
    ghost count = { λ c. contract_count c.board.now };

    ghost parts = { λ c. length c.regions.now };

    ghost part = { λ c x. region_of c.regions.now (hospital_of c.board.now x) };

    ghost chooses = { λ c i. kept c.board.now (region_at c.regions.now i) };

    ghost within = { λ c x lt. found_within (λ r. has_hospital r (hospital_of c.board.now x)) c.regions.now (c.places.all x lt) };

    fn contracts(&self) -> u32 {
        self.board.contracts()
    }
}

impl<'a> Choice for Flexible<'a> {
    ghost count = { λ c. contract_count c.board.now };

    ghost node_count = { λ c. length c.board.now.nodes };

    ghost chosen = { λ c. flexible c.board.now c.regions.now };

    ghost lawful = { λ c. c.lawful };

    fn contracts(&self) -> u32 {
        self.board.contracts()
    }

    fn nodes(&self) -> u32 {
        self.board.tree().nodes()
    }

    fn choose(&self, offered: &[u32], room: &mut Room) -> usize {
        choosing::choose(
            self.board,
            self.regions,
            offered,
            &mut room.list,
            &mut room.marks,
            &mut room.counts,
        )
    }
}

#[cfg(test)]
mod tests;

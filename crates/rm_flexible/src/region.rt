// Regions, with the hospitals in the order of their turns.

ghost use Rattle.std.specs.Prelude.{◌≡◌, ◌≢◌, ◌≤◌, All, AllPairs, sum_by};
ghost use Rattle.rm_flexible_laws.specs.Region.{IsRegion};

use std::marker::Model;

/// A hospital of a region: the seats that it fills first, and the seats that it has.
#[derive(Clone, Copy)]
pub struct Seat {
    pub hospital: u32,
    pub target: u32,
    pub capacity: u32,
}

impl Model for Seat {
    ghost use Rattle.rm_market.specs.Flexible.{Seat};

    ghost Value = { Seat };

    ghost view = { λ s. record { hospital = s.hospital; target = s.target; capacity = s.capacity } };

    ghost inverse = { λ s. record { hospital = s.hospital; target = s.target; capacity = s.capacity } };
}

/// A region: how many its hospitals may hold together, and its hospitals in the order of their turns. No hospital stands
/// twice, each target is at most the capacity, and the targets sum to at most the cap.
#[derive(Drop)]
pub struct Region {
    cap: u32,
    seats: Vec<Seat>,
}

impl Model for Region {
    ghost use Rattle.rm_market.specs.Flexible.{Region};
    ghost use Rattle.rm_flexible_laws.specs.Region.{IsRegion};

    ghost Value = { Region };

    ghost view = { λ r. record { cap = r.cap; seats = r.seats.items } };

    ghost invariant = { λ r. IsRegion (record { cap = r.cap; seats = r.seats.items }) };
}

impl Region {
    /// The region with this cap and these seats, which stand in the order of turns. Takes no memory.
    pub fn new(cap: u32, seats: Vec<Seat>) -> Region
        requires apart { AllPairs (λ s q. s.hospital ≢ q.hospital) seats.items }
        requires targets { All (λ s. s.target ≤ s.capacity) seats.items }
        requires cap { sum_by (λ s. s.target) seats.items ≤ cap }
        ensures cap { result.cap ≡ cap }
        ensures seats { result.seats ≡ seats.items }
        ensures lawful { IsRegion result }
    {
        Region { cap, seats }
    }

    /// How many the region's hospitals may hold together.
    pub fn cap(&self) -> u32
        ensures { result ≡ self.now.cap }
    {
        self.cap
    }

    /// The region's hospitals, in the order of their turns.
    pub fn seats(&self) -> &[Seat]
        ensures seats { result.now ≡ self.now.seats }
        ensures lawful { IsRegion self.now }
    {
        &self.seats
    }
}

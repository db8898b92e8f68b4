// What one region takes: its targets first, and then the turns.

ghost use Rattle.std.specs.Prelude.{◌≡◌, ◌+◌, ℕ, List, [], length, fold, slice_index, IsFalse};
ghost use Rattle.rm_market.specs.Board.{Board as MarketBoard};
ghost use Rattle.rm_market.specs.Flexible.{after_seat, greatest_capacity_of, kept, up_to_targets};
ghost use Rattle.rm_flexible.specs.Counts.{AreBelow, AreLeft, IsInRound, IsOffered, has_hospital};

use crate::region::Region;

// Takes of each hospital's contracts as many as its target, and says how many these are.
fn fill_targets(region: &Region, counts: &mut [u32]) -> u32
    requires { AreBelow (length counts.old) region.now }
    ensures length { length counts.new ≡ length counts.old }
    ensures others { (h : ℕ) → IsFalse (has_hospital region.now h) → slice_index counts.new h ≡ slice_index counts.old h }
    ensures taken { (b : MarketBoard) (X : List ℕ) → IsOffered b region.now X → AreLeft b region.now X [] counts.old
        → IsInRound b region.now X (up_to_targets b region.now X) 0 0 counts.new result }
{
    let cap = region.cap();
    let seats = region.seats();
    let mut total = 0;
    for i in 0..seats.len() {
        let seat = seats[i];
        let offered = counts[seat.hospital as usize];
        let taken = seat.target.min(offered);
        prove!(taken <= cap - total);
        counts[seat.hospital as usize] = offered - taken;
        total += taken;
    }
    total
}

// Gives each hospital its turn in this round, and says how many contracts the region has taken then.
fn take_round(region: &Region, round: u32, counts: &mut [u32], taken: u32) -> u32
    requires { AreBelow (length counts.old) region.now }
    ensures length { length counts.new ≡ length counts.old }
    ensures others { (h : ℕ) → IsFalse (has_hospital region.now h) → slice_index counts.new h ≡ slice_index counts.old h }
    ensures taken { (b : MarketBoard) (X K : List ℕ) → IsOffered b region.now X → IsInRound b region.now X K round 0 counts.old taken
        → IsInRound b region.now X (fold (after_seat b region.now X) K region.now.seats) (round + 1) 0 counts.new result }
{
    let cap = region.cap();
    let seats = region.seats();
    let mut total = taken;
    for i in 0..seats.len() {
        let seat = seats[i];
        let left = counts[seat.hospital as usize];
        if total < cap && round < seat.capacity - seat.target && left > 0 {
            counts[seat.hospital as usize] = left - 1;
            total += 1;
        }
    }
    total
}

// The greatest capacity of a hospital.
fn greatest_capacity(region: &Region) -> u32
    ensures { result ≡ greatest_capacity_of region.now }
{
    let seats = region.seats();
    let mut greatest = 0;
    for i in 0..seats.len() {
        let seat = seats[i];
        greatest = greatest.max(seat.capacity);
    }
    greatest
}

// The rounds of turns. After a round in which no hospital takes anything, none does.
fn take_turns(region: &Region, counts: &mut [u32], targets: u32)
    requires { AreBelow (length counts.old) region.now }
    ensures length { length counts.new ≡ length counts.old }
    ensures others { (h : ℕ) → IsFalse (has_hospital region.now h) → slice_index counts.new h ≡ slice_index counts.old h }
    ensures kept { (b : MarketBoard) (X : List ℕ) → IsOffered b region.now X → IsInRound b region.now X (up_to_targets b region.now X) 0 0 counts.old targets
        → AreLeft b region.now X (kept b region.now X) counts.new }
{
    let mut total = targets;
    for round in 0..greatest_capacity(region) {
        let before = total;
        total = take_round(region, round, counts, total);
        if total == before {
            return;
        }
    }
}

// Takes of the contracts that are counted what the region keeps of them; the counts say how many are left.
pub(crate) fn take_kept(region: &Region, counts: &mut [u32])
    requires { AreBelow (length counts.old) region.now }
    ensures length { length counts.new ≡ length counts.old }
    ensures others { (h : ℕ) → IsFalse (has_hospital region.now h) → slice_index counts.new h ≡ slice_index counts.old h }
    ensures kept { (b : MarketBoard) (X : List ℕ) → IsOffered b region.now X → AreLeft b region.now X [] counts.old
        → AreLeft b region.now X (kept b region.now X) counts.new }
{
    let targets = fill_targets(region, counts);
    take_turns(region, counts, targets);
}

// The regions of a case.

ghost use Rattle.std.specs.Prelude.{◌≡◌, ◌<◌, ℕ, All, IfOk, map, length};
ghost use Rattle.rm_sets.specs.Sets.{below};
ghost use Rattle.rm_flexible.specs.Counts.{AreBelow};
ghost use Rattle.rm_flexible_laws.specs.Region.{IsRegion};
ghost use Rattle.rm_policy.specs.Policy.{IsPolicy};
ghost use Rattle.rm_case.specs.Case.{IsCase, market, regions};
ghost use Rattle.rm_case.specs.Compiled.{capacities_in, cap_of_prefecture, region_of, seat_of};
ghost use Rattle.rm_case.specs.NodeSteps.{AreSome};
ghost use Rattle.rm_case.specs.Regions.{KeepBest};
ghost use Rattle.rm_case.specs.Suits.{SuitsRoster};

use crate::case::Case;
use crate::turns::order_of;
use rm_base::NoMemory;
use rm_flexible::{Region, Seat};
use rm_policy::{Kind, Policy};
use rm_roster::Roster;
use std::alloc::Global;

impl Case {
    /// The regions of a flexible policy, one for each prefecture, in the order in which `hospitals.csv` first names them; a policy
    /// of steps has none. A region may hold as many as the cap of its prefecture's entry, or without one as many as its hospitals
    /// have seats. Its hospitals stand in the order of the entry, or else in that of their rows, each by its row of
    /// `hospitals.csv`, counted from 0, with its target and its capacity. What `rm_flexible::pick` keeps of a region's applicants
    /// is their best subset on the board. `NoMemory` is want of memory.
    pub fn regions(&self, alloc: Global) -> Result<Vec<Region>, NoMemory>
        ensures regions { IfOk result (λ v. v.items ≡ regions self.now) }
        ensures hospitals { All (AreBelow (length (market self.now).board.ranks)) (regions self.now) }
        ensures best { KeepBest (market self.now).board (regions self.now) }
        ensures case { IsCase self.now }
    {
        let policy = self.policy();
        match policy.kind() {
            Kind::Flexible => prefecture_regions(alloc, self.roster(), policy),
            Kind::Steps => Ok(Vec::new(alloc)),
        }
    }
}

// The region of each prefecture.
fn prefecture_regions(
    alloc: Global,
    roster: &Roster,
    policy: &Policy,
) -> Result<Vec<Region>, NoMemory>
    requires suits { SuitsRoster roster.now policy.now }
    requires policy { IsPolicy policy.now }
    requires lawful { (q : ℕ) → q < length roster.now.prefectures → IsRegion (region_of roster.now policy.now q) }
    ensures { IfOk result (λ v. v.items ≡ map (region_of roster.now policy.now) (below (length roster.now.prefectures))) }
{
    let mut regions = Vec::new(alloc);
    for q in 0..roster.prefectures().len() {
        let region = region_of(alloc, roster, policy, q)?;
        regions.push(region)?;
    }
    Ok(regions)
}

// Prefecture q as a region.
fn region_of(alloc: Global, roster: &Roster, policy: &Policy, q: u32) -> Result<Region, NoMemory>
    requires suits { SuitsRoster roster.now policy.now }
    requires policy { IsPolicy policy.now }
    requires prefecture { q < length roster.now.prefectures }
    requires lawful { IsRegion (region_of roster.now policy.now q) }
    ensures { IfOk result (λ r. r ≡ region_of roster.now policy.now q) }
{
    let cap = cap_of(roster, policy, q);
    let seats = seats_of(alloc, roster, order_of(roster, policy, q))?;
    Ok(Region::new(cap, seats))
}

// How many a prefecture may hold: the cap of its entry, or else as many as its hospitals.
fn cap_of(roster: &Roster, policy: &Policy, q: u32) -> u32
    requires policy { IsPolicy policy.now }
    requires prefecture { q < length roster.now.prefectures }
    ensures { result ≡ cap_of_prefecture roster.now policy.now q }
{
    match policy.entry(roster.prefectures().name(q)) {
        Some(g) => policy.group_steps(g).cap(),
        None => capacities_in(roster, q),
    }
}

// The sum of the capacities of a prefecture's hospitals.
fn capacities_in(roster: &Roster, q: u32) -> u32
    requires { q < length roster.now.prefectures }
    ensures { result ≡ capacities_in roster.now q }
{
    let hospitals = roster.hospitals_in(q);
    let mut total = 0;
    for i in 0..hospitals.len() {
        total += roster.capacity(hospitals[i]);
    }
    total
}

// The hospitals of an order, each with its target and its capacity.
fn seats_of(alloc: Global, roster: &Roster, order: &[u32]) -> Result<Vec<Seat>, NoMemory>
    requires { AreSome roster.now order.now }
    ensures { IfOk result (λ v. v.items ≡ map (seat_of roster.now) order.now) }
{
    let mut seats = Vec::new(alloc);
    for i in 0..order.len() {
        let hospital = order[i];
        seats.push(Seat {
            hospital,
            target: roster.target(hospital),
            capacity: roster.capacity(hospital),
        })?;
    }
    Ok(seats)
}

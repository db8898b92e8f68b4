// The hospitals of a generated nation.

ghost use Rattle.std.specs.Prelude.{◌≡◌, ◌+◌, ◌<◌, ◌≤◌, IfOk, OnOk};
ghost use Rattle.rm_drill.specs.Draws.{state_after};
ghost use Rattle.rm_drill.specs.Hospitals.{capacities, capacity, hospital_count, target, targets};

use crate::NoMemory;
use crate::draws::Draws;
use std::alloc::Global;

/// How many hospitals there are for n doctors: three for twenty of them, but 47 at least, one for each prefecture, and 10,000 at most.
pub fn hospital_count(n: u32) -> u32
    ensures count { result ≡ hospital_count n }
    ensures few { result ≤ 10_000 }
{
    let count = 3 * n as u64 / 20;
    if count < 47 {
        return 47;
    }
    if count > 10_000 {
        return 10_000;
    }
    count as u32
}

/// The seats of hospitals: per hospital its capacity, 1 to 10, and its target, its capacity at most.
#[derive(Drop)]
pub struct Seats {
    pub capacities: Vec<u32>,
    pub targets: Vec<u32>,
}

/// Draws the seats of so many hospitals from a seed, and says which draws come next: those after two for each hospital.
pub fn draw_seats(alloc: Global, seed: u64, count: u32) -> Result<(Seats, Draws), NoMemory>
    ensures capacities { IfOk result (λ drawn. drawn.0.capacities.items ≡ capacities seed count) }
    ensures targets { IfOk result (λ drawn. drawn.0.targets.items ≡ targets seed count) }
    ensures draws { IfOk result (λ drawn. drawn.1 ≡ state_after seed (count + count)) }
{
    let mut draws = Draws::new(seed);
    let mut capacities = Vec::new(alloc);
    let mut targets = Vec::new(alloc);
    for k in 0..count {
        let capacity = 1 + draws.below(10);
        let target = draws.below(capacity + 1);
        capacities.push(capacity as u32)?;
        targets.push(target as u32)?;
    }
    Ok((
        Seats {
            capacities,
            targets,
        },
        draws,
    ))
}

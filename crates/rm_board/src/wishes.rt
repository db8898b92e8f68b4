// The doctors' listed contracts.

ghost use Rattle.std.specs.Prelude.{◌≡◌, ◌<◌, ◌++◌, length, filter_map, All, IfOk, OnOk};
ghost use Rattle.rm_market.specs.Market.{listed_of};
ghost use Rattle.rm_market.specs.Board.{number_of};

use crate::contracts::{Contracts, NoMemory};
use rm_ranks::Lists;
use std::alloc::Global;

/// Per doctor the contracts at the hospitals of his list, in its order. A hospital that doesn't rank him is passed over.
pub fn listed(alloc: Global, lists: &Lists, contracts: &Contracts) -> Result<Lists, NoMemory>
    requires { All (All (λ h. h < length contracts.now)) lists.now }
    ensures { IfOk result (λ listed. listed ≡ listed_of contracts.now lists.now) }
{
    let mut listed = Lists::with_capacity(alloc, lists.len(), contracts.count() as usize)?;
    let mut own = Vec::new(alloc);
    for d in 0..lists.len() {
        own.clear();
        add_found(&mut own, d, lists.list(d), contracts)?;
        listed.push(&own)?;
    }
    Ok(listed)
}

// Adds the contracts of doctor d at some hospitals.
fn add_found(
    own: &mut Vec<u32>,
    d: u32,
    hospitals: &[u32],
    contracts: &Contracts,
) -> Result<(), NoMemory>
    requires { All (λ h. h < length contracts.now) hospitals.now }
    ensures { OnOk result (own.new.items ≡ own.old.items ++ filter_map (number_of contracts.now d) hospitals.now) }
{
    for i in 0..hospitals.len() {
        let Some(x) = contracts.find(d, hospitals[i]) else {
            continue;
        };
        own.push(x)?;
    }
    Ok(())
}

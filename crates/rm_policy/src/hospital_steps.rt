// The steps of hospitals, by their entries.

ghost use Rattle.std.specs.Prelude.{◌≡◌, ◌≤◌, ◌<◌, List, [], None, Some, map, get_or, length, option_map, replicate, IfOk};
ghost use Rattle.toml.specs.View.{view};
ghost use Rattle.rm_policy.specs.GroupAnswers.{ReadsHospitals};

use crate::hospitals::read_hospital;
use rm_base::{NoMemory, ReadFault};
use rm_roster::Roster;
use rm_steps::Steps;
use std::alloc::Global;
use std::marker::Model;
use toml::Value;

/// The steps of hospitals: the item of each that has an entry, and the steps of the entries, where so many items stand before
/// them.
#[derive(Drop)]
pub struct HospitalSteps {
    items: Vec<Option<u64>>,
    steps: Vec<Steps>,
    first: u32,
}

impl Model for HospitalSteps {
    ghost use Rattle.std.specs.Prelude.{List, Option, ℤ, map};
    ghost use Rattle.rm_policy.specs.HospitalAnswers.{steps_at};

    ghost Value = { List (Option (List ℤ)) };

    ghost view = { λ s. map (steps_at s.steps.items s.first) s.items.items };
}

// So many times no item.
fn no_items(alloc: Global, count: u32) -> Result<Vec<Option<u64>>, NoMemory>
    ensures { IfOk result (λ v. v.items ≡ replicate count None) }
{
    let mut items = Vec::new(alloc);
    for h in 0..count {
        items.push(None)?;
    }
    Ok(items)
}

impl HospitalSteps {
    /// No hospital has an entry.
    pub fn none(alloc: Global) -> HospitalSteps
        ensures { result ≡ [] }
    {
        HospitalSteps {
            items: Vec::new(alloc),
            steps: Vec::new(alloc),
            first: 0,
        }
    }

    /// The steps of a hospital, if it has an entry.
    pub fn get(&self, h: u32) -> Option<&Steps>
        ensures { option_map (λ s. s.now) result ≡ get_or self.now h None }
    {
        if h as usize >= self.items.len() {
            return None;
        }
        let Some(item) = self.items[h as usize] else {
            return None;
        };
        let place = item.saturating_sub(self.first as u64 + 1) as usize;
        if place >= self.steps.len() {
            return None;
        }
        Some(&self.steps[place])
    }

    /// The steps of the hospitals that the entries of values name, where so many items stand before them, or their first
    /// refusal.
    pub fn read(
        alloc: Global,
        roster: &Roster,
        first: u32,
        values: &[Value],
    ) -> Result<HospitalSteps, ReadFault>
        ensures { ReadsHospitals roster.now first (map view values.now) result }
    {
        let Ok(mut items) = no_items(alloc, roster.hospitals().len()) else {
            return Err(ReadFault::NoMemory);
        };
        let mut steps = Vec::new(alloc);
        for k in 0..values.len() {
            let item = first as u64 + (k as u64 + 1);
            let entry = match read_hospital(alloc, roster, &items, item, &values[k]) {
                Ok(entry) => entry,
                Err(fault) => return Err(fault),
            };
            items[entry.hospital as usize] = Some(item);
            if steps.push(entry.steps).is_err() {
                return Err(ReadFault::NoMemory);
            }
        }
        Ok(HospitalSteps {
            items,
            steps,
            first,
        })
    }
}

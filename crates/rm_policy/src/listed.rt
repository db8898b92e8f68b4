// The pairs of a listed tie order.

ghost use Rattle.std.specs.Prelude.{◌≡◌, IfOk, map, option_map};
ghost use Rattle.toml.specs.View.{view};
ghost use Rattle.rm_policy.specs.Policy.{listed_pairs, pair_numbered};
ghost use Rattle.rm_policy.specs.Values.{pair};

use crate::values::pair;
use rm_base::NoMemory;
use rm_market::ListedPair;
use rm_roster::Roster;
use std::alloc::Global;
use toml::Value;

// The pair of a value, by number.
fn numbered(roster: &Roster, value: &Value) -> Option<ListedPair>
    ensures { result ≡ option_map (pair_numbered roster.now) (pair (view value.now)) }
{
    let Some(names) = pair(value) else {
        return None;
    };
    let doctor = roster.doctors().find(names.doctor);
    let hospital = roster.hospitals().find(names.hospital);
    Some(ListedPair { doctor, hospital })
}

/// The pairs of values, by number.
pub fn read_listed(
    alloc: Global,
    roster: &Roster,
    values: &[Value],
) -> Result<Vec<ListedPair>, NoMemory>
    ensures { IfOk result (λ v. v.items ≡ listed_pairs roster.now (map view values.now)) }
{
    let mut listed = Vec::new(alloc);
    for i in 0..values.len() {
        let Some(element) = numbered(roster, &values[i]) else {
            continue;
        };
        listed.push(element)?;
    }
    Ok(listed)
}

// Sets of hospitals, as ascending lists.

ghost use Rattle.std.specs.Prelude.{◌≡◌, ◌<◌, ◌≤◌, ℕ, [], map, get_or, length, IfOk, OnOk};
ghost use Rattle.rm_sets.specs.Sets.{has, IsIn, IsSet};
ghost use Rattle.rm_policy.specs.Prefectures.{sum_of_targets};
ghost use Rattle.rm_policy.specs.Groups.{by_prefecture, each_set, lies_in};
ghost use Rattle.rm_policy.specs.Gathered.{Gathers, IsGathered, united};

use rm_base::NoMemory;
use rm_roster::Roster;
use std::alloc::Global;

/// The sum of the targets of hospitals.
pub fn sum_of_targets(roster: &Roster, hospitals: &[u32]) -> u64
    requires within { (h : ℕ) → IsIn h hospitals.now → h < length roster.now.hospitals }
    requires few { length hospitals.now ≤ 10_000 }
    ensures { result ≡ sum_of_targets roster.now hospitals.now }
{
    let mut total = 0;
    for i in 0..hospitals.len() {
        total += roster.target(hospitals[i]) as u64;
    }
    total
}

// Sorts numbers, and keeps each of them once.
fn settle(numbers: &mut Vec<u32>)
    ensures set { IsSet numbers.new.items }
    ensures same { (n : ℕ) → has n numbers.new.items ≡ has n numbers.old.items }
{
    numbers.sort_unstable();
    numbers.dedup();
}

// Adds the numbers of a list that are below a count, and settles them once they are more than twice as many.
fn gather(numbers: &mut Vec<u32>, count: u32, list: &[u32]) -> Result<(), NoMemory>
    requires { IsGathered count numbers.old.items }
    ensures members { OnOk result (Gathers count numbers.old.items numbers.new.items (λ n. has n list.now)) }
    ensures room { OnOk result (IsGathered count numbers.new.items) }
{
    for i in 0..list.len() {
        if list[i] >= count {
            continue;
        }
        numbers.push(list[i])?;
    }
    if numbers.len() > 2 * count as usize {
        settle(numbers);
    }
    Ok(())
}

// Adds the numbers of the set of this number, if there is one.
fn gather_set(
    numbers: &mut Vec<u32>,
    count: u32,
    sets: &[Vec<u32>],
    number: u32,
) -> Result<(), NoMemory>
    requires { IsGathered count numbers.old.items }
    ensures members { OnOk result (Gathers count numbers.old.items numbers.new.items (λ n. has n (get_or (map (λ s. s.items) sets.now) number []))) }
    ensures room { OnOk result (IsGathered count numbers.new.items) }
{
    if let Some(set) = sets.get(number as usize) {
        gather(numbers, count, set)?;
    }
    Ok(())
}

// Adds the numbers of the sets of these numbers.
fn gather_sets(
    numbers: &mut Vec<u32>,
    count: u32,
    sets: &[Vec<u32>],
    chosen: &[u32],
) -> Result<(), NoMemory>
    requires { IsGathered count numbers.old.items }
    ensures members { OnOk result (Gathers count numbers.old.items numbers.new.items (λ n. lies_in n (map (λ s. s.items) sets.now) chosen.now)) }
    ensures room { OnOk result (IsGathered count numbers.new.items) }
{
    for i in 0..chosen.len() {
        gather_set(numbers, count, sets, chosen[i])?;
    }
    Ok(())
}

// Adds the hospitals of the prefecture of this number, if there is one.
fn gather_prefecture(
    numbers: &mut Vec<u32>,
    count: u32,
    roster: &Roster,
    number: u32,
) -> Result<(), NoMemory>
    requires { IsGathered count numbers.old.items }
    ensures members { OnOk result (Gathers count numbers.old.items numbers.new.items (λ n. has n (get_or (by_prefecture roster.now) number []))) }
    ensures room { OnOk result (IsGathered count numbers.new.items) }
{
    if number >= roster.prefectures().len() {
        return Ok(());
    }
    gather(numbers, count, roster.hospitals_in(number))
}

// Adds the hospitals of the prefectures of these numbers.
fn gather_prefectures(
    numbers: &mut Vec<u32>,
    count: u32,
    roster: &Roster,
    chosen: &[u32],
) -> Result<(), NoMemory>
    requires { IsGathered count numbers.old.items }
    ensures members { OnOk result (Gathers count numbers.old.items numbers.new.items (λ n. lies_in n (by_prefecture roster.now) chosen.now)) }
    ensures room { OnOk result (IsGathered count numbers.new.items) }
{
    for i in 0..chosen.len() {
        gather_prefecture(numbers, count, roster, chosen[i])?;
    }
    Ok(())
}

/// The hospitals that are among these, or in one of the prefectures of these numbers, or in one of the sets of these numbers.
pub fn union(
    alloc: Global,
    roster: &Roster,
    hospitals: &[u32],
    prefectures: &[u32],
    sets: &[Vec<u32>],
    groups: &[u32],
) -> Result<Vec<u32>, NoMemory>
    ensures { IfOk result (λ v. v.items ≡ united roster.now hospitals.now prefectures.now (each_set sets.now) groups.now) }
{
    let count = roster.hospitals().len();
    let mut members = Vec::new(alloc);
    gather(&mut members, count, hospitals)?;
    gather_prefectures(&mut members, count, roster, prefectures)?;
    gather_sets(&mut members, count, sets, groups)?;
    settle(&mut members);
    Ok(members)
}

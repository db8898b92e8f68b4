// The steps of the nodes of a board.

ghost use Rattle.std.specs.Prelude.{◌≡◌, ◌<◌, ◌++◌, map, length, IfOk};
ghost use Rattle.rm_market.specs.Tree.{below};
ghost use Rattle.rm_roster.specs.Roster.{IsRoster};
ghost use Rattle.rm_case.specs.Compiled.{flexible_steps, own_steps};
ghost use Rattle.rm_case.specs.Suits.{SuitsRoster};
ghost use Rattle.rm_case.specs.NodeSteps.{node_steps, turn_steps};

use crate::turns::{Turn, turn_steps, turns};
use rm_policy::{Kind, Policy};
use rm_roster::Roster;
use rm_steps::{NoMemory, Steps};
use std::alloc::Global;

// The steps of a hospital's entry, or else as many steps of 0 as it has seats.
fn own_steps_of(alloc: Global, roster: &Roster, policy: &Policy, h: u32) -> Result<Steps, NoMemory>
    requires known { h < length roster.now.hospitals }
    requires roster { IsRoster roster.now }
    ensures { IfOk result (λ s. s ≡ own_steps roster.now policy.now h) }
{
    match policy.hospital_steps(h) {
        Some(steps) => steps.copy(alloc),
        None => Steps::flat(alloc, roster.capacity(h)),
    }
}

// The steps of each hospital where the policy is one of steps.
fn own_steps(alloc: Global, roster: &Roster, policy: &Policy) -> Result<Vec<Steps>, NoMemory>
    ensures { IfOk result (λ v. v.items ≡ map (own_steps roster.now policy.now) (below (length roster.now.hospitals))) }
{
    let mut steps = Vec::new(alloc);
    for h in 0..roster.hospitals().len() {
        let own = own_steps_of(alloc, roster, policy, h)?;
        steps.push(own)?;
    }
    Ok(steps)
}

// The steps of each hospital where the policy is flexible.
fn flexible_steps(alloc: Global, roster: &Roster, policy: &Policy) -> Result<Vec<Steps>, NoMemory>
    requires { SuitsRoster roster.now policy.now }
    ensures { IfOk result (λ v. v.items ≡ map (flexible_steps roster.now policy.now) (below (length roster.now.hospitals))) }
{
    let turns = turns(alloc, roster, policy)?;
    let mut steps = Vec::new(alloc);
    for h in 0..roster.hospitals().len() {
        let own = turn_steps(
            alloc,
            &turns[h as usize],
            roster.target(h),
            roster.capacity(h),
        )?;
        steps.push(own)?;
    }
    Ok(steps)
}

// The steps of the groups, after those of the hospitals.
fn push_groups(alloc: Global, policy: &Policy, steps: &mut Vec<Steps>) -> Result<(), NoMemory>
    ensures { IfOk result (λ _. steps.new.items ≡ steps.old.items ++ policy.now.groups.steps) }
{
    for g in 0..policy.groups().len() {
        let own = policy.group_steps(g as u32).copy(alloc)?;
        steps.push(own)?;
    }
    Ok(())
}

/// The steps of each hospital, and then those of each group.
pub fn node_steps(alloc: Global, roster: &Roster, policy: &Policy) -> Result<Vec<Steps>, NoMemory>
    requires { SuitsRoster roster.now policy.now }
    ensures { IfOk result (λ v. v.items ≡ node_steps roster.now policy.now) }
{
    let mut steps = match policy.kind() {
        Kind::Flexible => flexible_steps(alloc, roster, policy)?,
        Kind::Steps => own_steps(alloc, roster, policy)?,
    };
    push_groups(alloc, policy, &mut steps)?;
    Ok(steps)
}

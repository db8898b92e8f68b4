// The turns of hospitals in the orders of their prefectures, and the steps that make them take these turns.

ghost use Rattle.std.specs.Prelude.{◌≡◌, ◌≤◌, ◌<◌, ◌++◌, ℕ, map, length, get_or, IfOk, None, if◌then◌else◌};
ghost use Rattle.rm_market.specs.Steps.{steps_of, step_fault};
ghost use Rattle.rm_market.specs.Tree.{below};
ghost use Rattle.rm_market.specs.Flexible.{full_worth, greatest_capacity_of};
ghost use Rattle.rm_roster.specs.Roster.{IsRoster};
ghost use Rattle.rm_sets.specs.Sets.{has};
ghost use Rattle.rm_case.specs.Compiled.{order_of_prefecture};
ghost use Rattle.rm_case.specs.Suits.{SuitsRoster};
ghost use Rattle.rm_case.specs.NodeSteps.{at_once, hospital_turn, in_turns, seats_region, turn_in, turn_steps, with_steps, AreSome, IsTurn};

use rm_market::Run;
use rm_policy::Policy;
use rm_roster::Roster;
use rm_steps::{NoMemory, Steps};
use std::alloc::{AllocError, Global};

/// The turn of a hospital: the worth of a seat up to its target, how many hospitals take turns with it, itself included, and
/// its place among them, counted from 1.
#[derive(Clone, Copy)]
pub struct Turn {
    pub full: u32,
    pub hospitals: u32,
    pub place: u32,
}

// No turn.
const NO_TURN: Turn = Turn {
    full: 0,
    hospitals: 0,
    place: 0,
};

// The greatest capacity of the hospitals of an order.
fn greatest_capacity(roster: &Roster, order: &[u32]) -> u32
    requires order { AreSome roster.now order.now }
    requires roster { IsRoster roster.now }
    ensures greatest { result ≡ greatest_capacity_of (seats_region roster.now order.now) }
    ensures few { result ≤ 10_000 }
{
    let mut greatest = 0;
    for i in 0..order.len() {
        greatest = greatest.max(roster.capacity(order[i]));
    }
    greatest
}

// The worth of a seat up to the target, where hospitals take turns in this order.
fn full_worth(roster: &Roster, order: &[u32]) -> u32
    requires order { AreSome roster.now order.now }
    requires roster { IsRoster roster.now }
    ensures full { result ≡ full_worth (seats_region roster.now order.now) }
    ensures bounded { result ≤ 1_000_000_000 }
{
    1 + order.len() as u32 * greatest_capacity(roster, order)
}

// Gives the hospitals of an order their turns.
fn give_turns(roster: &Roster, order: &[u32], turns: &mut Vec<Turn>)
    requires order { AreSome roster.now order.now }
    requires roster { IsRoster roster.now }
    requires each { length turns.old.items ≡ length roster.now.hospitals }
    ensures each { length turns.new.items ≡ length turns.old.items }
    ensures turns { (h : ℕ) (t : Turn) → get_or turns.new.items h t ≡ (if has h order.now then turn_in roster.now order.now h else get_or turns.old.items h t) }
{
    let full = full_worth(roster, order);
    for i in 0..order.len() {
        turns[order[i] as usize] = Turn {
            full,
            hospitals: order.len() as u32,
            place: i as u32 + 1,
        };
    }
}

/// The hospitals of a prefecture in the order of their turns: that of its entry, or else that of their rows.
pub(crate) fn order_of<'a>(roster: &'a Roster, policy: &'a Policy, q: u32) -> &'a [u32]
    requires { q < length roster.now.prefectures }
    ensures { result.now ≡ order_of_prefecture roster.now policy.now q }
{
    let rows = roster.hospitals_in(q);
    let Some(g) = policy.entry(roster.prefectures().name(q)) else {
        return rows;
    };
    match policy.order(g) {
        Some(order) => order,
        None => rows,
    }
}

/// The turn of each hospital in the order of its prefecture.
pub fn turns(alloc: Global, roster: &Roster, policy: &Policy) -> Result<Vec<Turn>, NoMemory>
    requires { SuitsRoster roster.now policy.now }
    ensures { IfOk result (λ v. v.items ≡ map (hospital_turn roster.now policy.now) (below (length roster.now.hospitals))) }
{
    let mut turns = vec![in alloc; NO_TURN; roster.hospitals().len() as usize]?;
    for q in 0..roster.prefectures().len() {
        give_turns(roster, order_of(roster, policy, q), &mut turns);
    }
    Ok(turns)
}

// The run of the seats up to the target.
fn at_once(turn: &Turn, target: u32) -> Run
    ensures { result ≡ at_once turn.now target }
{
    Run {
        value: turn.full as i64,
        fall: 0,
        count: target as i64,
    }
}

// The run of the seats past the target, of which each comes a whole round of turns after the one before.
fn in_turns(turn: &Turn, target: u32, capacity: u32) -> Run
    requires { target ≤ capacity }
    ensures { result ≡ in_turns turn.now target capacity }
{
    Run {
        value: turn.full as i64 - turn.place as i64,
        fall: turn.hospitals as i64,
        count: (capacity - target) as i64,
    }
}

// Adds a run, unless it has no step.
fn push_run(runs: &mut Vec<Run>, run: Run) -> Result<(), NoMemory>
    ensures { IfOk result (λ _. runs.new.items ≡ runs.old.items ++ with_steps run) }
{
    if run.count > 0 {
        runs.push(run)?;
    }
    Ok(())
}

// The runs of the steps of a hospital with this turn.
fn turn_runs(alloc: Global, turn: &Turn, target: u32, capacity: u32) -> Result<Vec<Run>, NoMemory>
    requires { IsTurn turn.now target capacity }
    ensures steps { IfOk result (λ runs. steps_of runs.items ≡ turn_steps turn.now target capacity) }
    ensures fault { IfOk result (λ runs. step_fault runs.items ≡ None) }
{
    let mut runs = Vec::new(alloc);
    push_run(&mut runs, at_once(turn, target))?;
    push_run(&mut runs, in_turns(turn, target, capacity))?;
    Ok(runs)
}

/// The steps of a hospital with this turn: each seat up to the target has the full worth, and each later one less, by its turn.
pub fn turn_steps(alloc: Global, turn: &Turn, target: u32, capacity: u32) -> Result<Steps, NoMemory>
    requires { IsTurn turn.now target capacity }
    ensures { IfOk result (λ s. s ≡ turn_steps turn.now target capacity) }
{
    let runs = turn_runs(alloc, turn, target, capacity)?;
    match Steps::check(alloc, &runs) {
        Ok(steps) => Ok(steps),
        Err(_) => Err(AllocError),
    }
}

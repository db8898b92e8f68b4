//! Lists of steps that never rise, written as runs.
#![tactic(auto)]

ghost use Rattle.std.specs.Prelude.{◌≡◌, ◌+◌, ◌-◌, ◌*◌, ◌^◌, ◌<◌, ◌≤◌, ℕ, ℤ, pos, ◌+ℤ◌, ◌-ℤ◌, ◌*ℤ◌, ◌≤ℤ◌, List, length, map, take, replicate, Some, None, IfOk, false, int_lt};
ghost use Rattle.std.specs.List.{last_or};
ghost use Rattle.std.specs.Option.{option_map_or};
ghost use Rattle.rm_base.specs.Checks.{first_of};
ghost use Rattle.rm_market.specs.Board.{int_sum, total};
ghost use Rattle.rm_market.specs.Steps.{natural, step_fault, steps_of, run_steps, run_checks, is_outside, is_out_of_range, rises, last_step_of_run, AreSteps};
ghost use Rattle.rm_steps.specs.Runs.{Accepts, Passes, step_at, sum_below};

use rm_base::codes::{GREATEST_CAP, GREATEST_STEP};
pub use rm_market::{Run, StepFault};
use std::alloc::{AllocError, Global};
use std::marker::Model;

/// Want of memory.
pub type NoMemory = AllocError;

// The greatest number of steps.
const MOST_STEPS: i128 = GREATEST_CAP as i128;

/// A list of steps, the first seat's first. No step is greater than the one before it.
#[derive(Drop)]
pub struct Steps {
    runs: Vec<Run>,
    cap: u32,
}

impl Model for Steps {
    ghost use Rattle.std.specs.Prelude.{List, ℤ};
    ghost use Rattle.rm_market.specs.Steps.{steps_of};
    ghost use Rattle.rm_steps.specs.Runs.{AreKept};

    ghost Value = { List ℤ };

    ghost view = { λ s. steps_of s.runs.items };

    ghost invariant = { λ s. AreKept s.runs.items s.cap };
}

// The step of a run that has k steps of it before it.
fn step_after(run: &Run, k: i128) -> i128
    requires low { (pos 0 -ℤ pos (2 ^ 63 + 1)) ≤ℤ k }
    requires high { k ≤ℤ pos (2 ^ 63) }
    ensures { result ≡ run.now.value -ℤ (run.now.fall *ℤ k) }
{
    run.value as i128 - run.fall as i128 * k
}

// The last step of a run.
fn last_step(run: &Run) -> i128
    ensures { result ≡ last_step_of_run run.now }
{
    step_after(run, run.count as i128 - 1)
}

// Whether a step is too great, or too small.
fn is_outside(step: i128) -> bool
    ensures { result ≡ is_outside step }
{
    step > GREATEST_STEP as i128 || step < -(GREATEST_STEP as i128)
}

// Whether the count of a run, or its first or last step, is out of range, where the runs before it have so many steps.
fn is_out_of_range(before: &[Run], held: u32, run: &Run) -> bool
    requires { int_sum (map (λ q. q.count) before.now) ≡ pos held }
    ensures { result ≡ is_out_of_range before.now run.now }
{
    let count = run.count as i128;
    if count < 1 || count > MOST_STEPS || held as i128 + count > MOST_STEPS {
        return true;
    }
    is_outside(run.value as i128) || is_outside(last_step(run))
}

// Whether the first step of a run is greater than the last one of the run before it.
fn exceeds(before: &[Run], run: &Run) -> bool
    ensures { result ≡ option_map_or (λ q. int_lt (last_step_of_run q) run.now.value) (last_or None before.now) false }
{
    match before.last() {
        Some(former) => last_step(former) < run.value as i128,
        None => false,
    }
}

// Whether the steps rise within a run, or from the run before it.
fn rises(before: &[Run], run: &Run) -> bool
    ensures { result ≡ rises before.now run.now }
{
    (run.count > 1 && run.fall < 0) || exceeds(before, run)
}

// Checks a run after the runs before it, which have so many steps.
fn check_run(before: &[Run], held: u32, run: &Run) -> Result<(), StepFault>
    requires sum { int_sum (map (λ q. q.count) before.now) ≡ pos held }
    requires number { length before.now ≤ 1_000_000 }
    ensures { Passes (first_of (run_checks before.now run.now)) result }
{
    let number = before.len() as u32 + 1;
    if is_out_of_range(before, held, run) {
        return Err(StepFault::Range(number));
    }
    if rises(before, run) {
        return Err(StepFault::NotConcave(number));
    }
    Ok(())
}

// The number of steps of a run.
fn count_of(run: &Run) -> u32
    requires { (pos 0 ≤ℤ run.now.count) × (run.now.count ≤ℤ pos 1_000_000) }
    ensures count { result ≡ natural run.now.count }
    ensures few { result ≤ 1_000_000 }
{
    run.count as u32
}

// The sum of the numbers below n.
fn sum_below(n: u32) -> u64
    requires { n ≤ 1_000_000 }
    ensures sum { result ≡ sum_below n }
    ensures few { result ≤ 2 ^ 40 }
{
    if n == 0 {
        return 0;
    }
    n as u64 * (n as u64 - 1) / 2
}

// So many times a number.
fn times(z: i64, n: u64) -> i128
    requires { n ≤ 2 ^ 40 }
    ensures product { result ≡ z *ℤ pos n }
    ensures low { (pos 0 -ℤ pos (2 ^ 103)) ≤ℤ result }
    ensures high { result ≤ℤ pos (2 ^ 103) }
{
    z as i128 * n as i128
}

// The sum of the first n steps of a run.
fn first_sum(run: &Run, n: u32) -> i128
    requires few { n ≤ 1_000_000 }
    requires within { n ≤ natural run.now.count }
    ensures sum { result ≡ int_sum (take n (run_steps run.now)) }
    ensures low { (pos 0 -ℤ pos (2 ^ 104)) ≤ℤ result }
    ensures high { result ≤ℤ pos (2 ^ 104) }
{
    times(run.value, n as u64) - times(run.fall, sum_below(n))
}

impl Steps {
    /// Reads runs as a list of steps. Runs count from 1, and the first run with a fault decides.
    ///
    /// `Range(r)` comes exactly where the count of run r is below 1 or above 1,000,000, the counts up to r sum to more
    /// than 1,000,000, or its first or last step is outside of -1,000,000,000 to 1,000,000,000. Else `NotConcave(r)` comes
    /// exactly where run r has more than one step and a negative fall, or its first step exceeds the last step of the run
    /// before. No runs give no steps.
    pub fn check(alloc: Global, runs: &[Run]) -> Result<Steps, StepFault>
        ensures answer { Accepts (step_fault runs.now) (steps_of runs.now) result }
        ensures steps { IfOk result AreSteps }
    {
        let mut held = 0;
        for i in 0..runs.len() {
            check_run(&runs[..i], held, &runs[i])?;
            held += count_of(&runs[i]);
        }
        let Ok(runs) = runs.to_vec(alloc) else {
            return Err(StepFault::NoMemory);
        };
        Ok(Steps { runs, cap: held })
    }

    /// So many steps of 0, at most 1,000,000.
    pub fn flat(alloc: Global, n: u32) -> Result<Steps, NoMemory>
        requires { n ≤ GREATEST_CAP }
        ensures flat { IfOk result (λ s. s ≡ replicate n (pos 0)) }
        ensures steps { IfOk result AreSteps }
    {
        let mut runs = Vec::new(alloc);
        if n == 0 {
            return Ok(Steps { runs, cap: 0 });
        }
        runs.push(Run {
            value: 0,
            fall: 0,
            count: n as i64,
        })?;
        Ok(Steps { runs, cap: n })
    }

    /// The same steps.
    pub fn copy(&self, alloc: Global) -> Result<Steps, NoMemory>
        ensures same { IfOk result (λ s. s ≡ self.now) }
        ensures steps { IfOk result AreSteps }
    {
        Ok(Steps {
            runs: self.runs.to_vec(alloc)?,
            cap: self.cap,
        })
    }

    /// The number of steps, at most 1,000,000.
    pub fn cap(&self) -> u32
        ensures cap { result ≡ length self.now }
        ensures steps { AreSteps self.now }
    {
        self.cap
    }

    /// The k-th step, counted from 1. None exactly where k is 0 or past the cap.
    pub fn step(&self, k: u32) -> Option<i64>
        ensures { result ≡ step_at self.now k }
    {
        if k == 0 {
            return None;
        }
        let mut left = k - 1;
        for run in &self.runs {
            let count = count_of(run);
            if left < count {
                let step = step_after(run, left as i128);
                return Some(step as i64);
            }
            left -= count;
        }
        None
    }

    /// The sum of the first k steps; where k is past the cap, of all steps.
    pub fn total(&self, k: u32) -> i128
        ensures { result ≡ total self.now k }
    {
        let mut sum = 0;
        let mut left = k;
        for run in &self.runs {
            let taken = left.min(count_of(run));
            sum += first_sum(run, taken);
            left -= taken;
        }
        sum
    }
}

#[cfg(test)]
mod tests;

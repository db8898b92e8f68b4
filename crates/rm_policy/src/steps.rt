// The runs of steps that an entry gives.

ghost use Rattle.std.specs.Prelude.{◌≡◌, IfOk, List, length, map};
ghost use Rattle.toml.specs.View.{view};
ghost use Rattle.rm_base.specs.Checks.{first_of};
ghost use Rattle.rm_base.specs.Reading.{Reads};
ghost use Rattle.rm_market.specs.Steps.{step_fault, steps_of};
ghost use Rattle.rm_policy.specs.Steps.{runs_of, step_checks};

use crate::entries::refused;
use crate::values::run;
use rm_base::codes::{MOST_RUNS, RUNS_LIMIT, STEP_OUT_OF_RANGE, STEPS_RISE, TOO_MANY_ITEMS};
use rm_base::{NoMemory, ReadFault};
use rm_steps::{Run, StepFault, Steps};
use std::alloc::Global;
use toml::Value;

// The runs among values.
fn runs_of(alloc: Global, values: &[Value]) -> Result<Vec<Run>, NoMemory>
    ensures { IfOk result (λ v. v.items ≡ runs_of (map view values.now)) }
{
    let mut runs = Vec::new(alloc);
    for i in 0..values.len() {
        let Some(found) = run(&values[i]) else {
            continue;
        };
        runs.push(found)?;
    }
    Ok(runs)
}

/// The steps that the runs of an entry give: not too many runs, each in its range, and steps that never rise.
pub fn read_steps(alloc: Global, values: &[Value], item: u64) -> Result<Steps, ReadFault>
    ensures { Reads (first_of (step_checks item (runs_of (map view values.now)))) (steps_of (runs_of (map view values.now))) result }
{
    let Ok(runs) = runs_of(alloc, values) else {
        return Err(ReadFault::NoMemory);
    };
    if runs.len() > MOST_RUNS as usize {
        return Err(ReadFault::Refused(refused(TOO_MANY_ITEMS, item, RUNS_LIMIT)));
    }
    match Steps::check(alloc, &runs) {
        Ok(steps) => Ok(steps),
        Err(StepFault::Range(r)) => {
            Err(ReadFault::Refused(refused(STEP_OUT_OF_RANGE, item, r as u64)))
        }
        Err(StepFault::NotConcave(r)) => {
            Err(ReadFault::Refused(refused(STEPS_RISE, item, r as u64)))
        }
        Err(StepFault::NoMemory) => Err(ReadFault::NoMemory),
    }
}

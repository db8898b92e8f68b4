// The entries of hospitals.

ghost use Rattle.std.specs.Prelude.{◌≡◌, ◌<◌, ◌≤◌, List, Some, None, IfOk, get_or, length};
ghost use Rattle.toml.specs.View.{view};
ghost use Rattle.rm_policy.specs.GroupAnswers.{ReadsHospitalEntry, ReadsHospitalShape};

use crate::entries::{Found, array_at, bad_value, has_only, refused, text_at};
use crate::keys::Key;
use crate::steps::read_steps;
use crate::values::Shape;
use rm_base::codes::{MORE_STEPS_THAN_SEATS, REPEATED_ENTRY, UNKNOWN_ENTRY_NAME, UNKNOWN_KEY};
use rm_base::{ReadFault, Refusal};
use rm_roster::Roster;
use rm_steps::Steps;
use std::alloc::Global;
use toml::Value;

/// What the values of an entry say by their shapes.
#[derive(Drop)]
pub struct HospitalShape<'a> {
    pub name: &'a str,
    pub runs: &'a [Value],
}

/// An entry: its hospital, and the steps of it.
#[derive(Drop)]
pub struct HospitalEntry {
    pub hospital: u32,
    pub steps: Steps,
}

// The values of an entry by their shapes, or the first refusal.
fn read_shape(value: &Value, item: u64) -> Result<HospitalShape<'_>, Refusal>
    ensures { ReadsHospitalShape item (view value.now) result }
{
    let known = [Key::Name, Key::Steps];
    if !has_only(value, &known) {
        return Err(refused(UNKNOWN_KEY, item, 0));
    }
    let Some(name) = text_at(value, Key::Name) else {
        return Err(bad_value(item, Key::Name));
    };
    match array_at(value, Key::Steps, Shape::Run) {
        Found::Absent => Err(bad_value(item, Key::Steps)),
        Found::Bad => Err(bad_value(item, Key::Steps)),
        Found::Good(runs) => Ok(HospitalShape { name, runs }),
    }
}

/// The entry of a value, where each hospital has this former item, or its first refusal.
pub fn read_hospital(
    alloc: Global,
    roster: &Roster,
    former: &[Option<u64>],
    item: u64,
    value: &Value,
) -> Result<HospitalEntry, ReadFault>
    requires { length former.now ≡ length roster.now.hospitals }
    ensures { ReadsHospitalEntry roster.now (λ h. get_or former.now h None) item (view value.now) result }
{
    let shape = match read_shape(value, item) {
        Ok(shape) => shape,
        Err(refusal) => return Err(ReadFault::Refused(refusal)),
    };
    let Some(h) = roster.hospitals().find(shape.name) else {
        return Err(ReadFault::Refused(refused(UNKNOWN_ENTRY_NAME, item, 0)));
    };
    if let Some(former) = former[h as usize] {
        return Err(ReadFault::Refused(refused(REPEATED_ENTRY, item, former)));
    }
    let steps = match read_steps(alloc, shape.runs, item) {
        Ok(steps) => steps,
        Err(fault) => return Err(fault),
    };
    if steps.cap() > roster.capacity(h) {
        return Err(ReadFault::Refused(refused(MORE_STEPS_THAN_SEATS, item, 0)));
    }
    Ok(HospitalEntry { hospital: h, steps })
}

// The entries of groups.

ghost use Rattle.std.specs.Prelude.{◌≡◌, ◌≤◌, ◌<◌, ◌+◌, ◌^◌, List, Some, None, IfOk, length, map};
ghost use Rattle.toml.specs.View.{view};
ghost use Rattle.rm_base.specs.Checks.{first_of};
ghost use Rattle.rm_names.specs.Names.{place_of};
ghost use Rattle.rm_base.specs.Reading.{Reads};
ghost use Rattle.rm_policy.specs.Entries.{name_of_entry, value_at};
ghost use Rattle.rm_policy.specs.Steps.{step_checks};
ghost use Rattle.rm_policy.specs.GroupAnswers.{IsFit, ReadsArrays, ReadsElements, ReadsGroup, ReadsGroupName, ReadsGroupShape, ReadsLimit, is_cap, runs_of_limit, steps_of_limit};

use crate::elements::read_names;
use crate::entries::{Found, array_at, bad_value, has_only, list_at, refused, text_at};
use crate::keys::Key;
use crate::steps::read_steps;
use crate::values::{Shape, cap, value_at};
use rm_base::codes::{GROUPS_LIMIT, MOST_GROUPS, REPEATED_ENTRY, TOO_MANY_ITEMS, UNKNOWN_KEY};
use rm_base::text::is_name;
use rm_base::{ReadFault, Refusal};
use rm_names::Names;
use rm_roster::Roster;
use rm_steps::Steps;
use std::alloc::Global;
use toml::Value;

/// What limits a group: a cap, or the runs of its steps.
#[derive(Drop)]
pub enum Limit<'a> {
    Cap(u32),
    Runs(&'a [Value]),
}

/// The arrays of an entry: the names of hospitals, of prefectures and of groups.
#[derive(Drop)]
pub struct GroupArrays<'a> {
    pub hospitals: &'a [Value],
    pub prefectures: &'a [Value],
    pub groups: &'a [Value],
}

/// What the values of an entry say by their shapes.
#[derive(Drop)]
pub struct GroupShape<'a> {
    pub name: &'a str,
    pub limit: Limit<'a>,
    pub arrays: GroupArrays<'a>,
}

/// The numbers of what an entry names: hospitals, prefectures and groups.
#[derive(Drop)]
pub struct Elements {
    pub hospitals: Vec<u32>,
    pub prefectures: Vec<u32>,
    pub groups: Vec<u32>,
}

/// An entry: its name, the numbers of what it names, its steps, and whether they are given by a cap.
#[derive(Drop)]
pub struct GroupEntry<'a> {
    pub name: &'a str,
    pub elements: Elements,
    pub steps: Steps,
    pub by_cap: bool,
}

// The runs of an entry without a cap.
fn runs_at(value: &Value, item: u64) -> Result<Limit<'_>, Refusal>
    requires { value_at Key.Cap (view value.now) ≡ None }
    ensures { ReadsLimit item (view value.now) result }
{
    match array_at(value, Key::Steps, Shape::Run) {
        Found::Absent => Err(bad_value(item, Key::Cap)),
        Found::Bad => Err(bad_value(item, Key::Steps)),
        Found::Good(values) => Ok(Limit::Runs(values)),
    }
}

// The limit of an entry: exactly one of `cap` and `steps`.
fn limit_at(value: &Value, item: u64) -> Result<Limit<'_>, Refusal>
    ensures { ReadsLimit item (view value.now) result }
{
    let Some(found) = value_at(value, Key::Cap) else {
        return runs_at(value, item);
    };
    let Some(cap) = cap(found) else {
        return Err(bad_value(item, Key::Cap));
    };
    if let Some(_steps) = value_at(value, Key::Steps) {
        return Err(bad_value(item, Key::Steps));
    }
    Ok(Limit::Cap(cap))
}

// The name of an entry, which has no unknown key.
fn read_name(value: &Value, item: u64) -> Result<&str, Refusal>
    ensures name { ReadsGroupName item (view value.now) result }
    ensures within { IfOk result (λ s. item ≤ 5_000) }
{
    if item > MOST_GROUPS as u64 {
        return Err(refused(TOO_MANY_ITEMS, item, GROUPS_LIMIT));
    }
    let known = [
        Key::Name,
        Key::Cap,
        Key::Steps,
        Key::Hospitals,
        Key::Prefectures,
        Key::Groups,
    ];
    if !has_only(value, &known) {
        return Err(refused(UNKNOWN_KEY, item, 0));
    }
    let Some(name) = text_at(value, Key::Name) else {
        return Err(bad_value(item, Key::Name));
    };
    if !is_name(name) {
        return Err(bad_value(item, Key::Name));
    }
    Ok(name)
}

// The arrays of an entry.
fn read_arrays(value: &Value, item: u64) -> Result<GroupArrays<'_>, Refusal>
    ensures { ReadsArrays item (view value.now) result }
{
    let hospitals = match list_at(value, Key::Hospitals, Shape::Text, item) {
        Ok(values) => values,
        Err(refusal) => return Err(refusal),
    };
    let prefectures = match list_at(value, Key::Prefectures, Shape::Text, item) {
        Ok(values) => values,
        Err(refusal) => return Err(refusal),
    };
    match list_at(value, Key::Groups, Shape::Text, item) {
        Ok(groups) => Ok(GroupArrays {
            hospitals,
            prefectures,
            groups,
        }),
        Err(refusal) => Err(refusal),
    }
}

// The values of an entry by their shapes, or the first refusal.
fn read_shape(value: &Value, item: u64) -> Result<GroupShape<'_>, Refusal>
    ensures shape { ReadsGroupShape item (view value.now) result }
    ensures within { IfOk result (λ s. item ≤ 5_000) }
{
    let name = match read_name(value, item) {
        Ok(name) => name,
        Err(refusal) => return Err(refusal),
    };
    let limit = match limit_at(value, item) {
        Ok(limit) => limit,
        Err(refusal) => return Err(refusal),
    };
    let arrays = match read_arrays(value, item) {
        Ok(arrays) => arrays,
        Err(refusal) => return Err(refusal),
    };
    Ok(GroupShape {
        name,
        limit,
        arrays,
    })
}

// The numbers of what an entry names.
fn read_elements(
    alloc: Global,
    roster: &Roster,
    names: &Names,
    arrays: &GroupArrays<'_>,
    item: u64,
) -> Result<Elements, ReadFault>
    ensures { ReadsElements roster.now names.now item arrays.now result }
{
    let count = arrays.hospitals.len() as u64;
    let hospitals = match read_names(alloc, arrays.hospitals, roster.hospitals(), item, 0) {
        Ok(numbers) => numbers,
        Err(fault) => return Err(fault),
    };
    let prefectures = match read_names(
        alloc,
        arrays.prefectures,
        roster.prefectures(),
        item,
        count,
    ) {
        Ok(numbers) => numbers,
        Err(fault) => return Err(fault),
    };
    let count = count + arrays.prefectures.len() as u64;
    let groups = match read_names(alloc, arrays.groups, names, item, count) {
        Ok(numbers) => numbers,
        Err(fault) => return Err(fault),
    };
    Ok(Elements {
        hospitals,
        prefectures,
        groups,
    })
}

// Whether a limit is a cap.
fn is_cap(limit: &Limit<'_>) -> bool
    ensures { result ≡ is_cap limit.now }
{
    match limit {
        Limit::Cap(_) => true,
        Limit::Runs(_) => false,
    }
}

// The steps of a limit.
#[tactic(auto, using(crate::proofs::EntryLemmas::no_runs))]
fn read_limit(alloc: Global, limit: &Limit<'_>, item: u64) -> Result<Steps, ReadFault>
    requires { IsFit limit.now }
    ensures { Reads (first_of (step_checks item (runs_of_limit limit.now))) (steps_of_limit limit.now) result }
{
    match limit {
        Limit::Cap(cap) => match Steps::flat(alloc, *cap) {
            Ok(steps) => Ok(steps),
            Err(_) => Err(ReadFault::NoMemory),
        },
        Limit::Runs(values) => read_steps(alloc, values, item),
    }
}

/// The entry of a value, where so many items and the groups of these names stand before it, or its first refusal.
pub fn read_group<'a>(
    alloc: Global,
    roster: &Roster,
    first: u32,
    names: &Names,
    value: &'a Value,
) -> Result<GroupEntry<'a>, ReadFault>
    ensures entry { ReadsGroup roster.now first names.now (view value.now) result }
    ensures new { IfOk result (λ e. place_of names.now (name_of_entry (view value.now)) ≡ None) }
    ensures few { IfOk result (λ e. first + length names.now < 5_000) }
{
    let item = first as u64 + names.len() as u64 + 1;
    let shape = match read_shape(value, item) {
        Ok(shape) => shape,
        Err(refusal) => return Err(ReadFault::Refused(refusal)),
    };
    if let Some(former) = names.find(shape.name) {
        let former_item = first as u64 + former as u64 + 1;
        return Err(ReadFault::Refused(refused(REPEATED_ENTRY, item, former_item)));
    }
    let elements = match read_elements(alloc, roster, names, &shape.arrays, item) {
        Ok(elements) => elements,
        Err(fault) => return Err(fault),
    };
    let steps = match read_limit(alloc, &shape.limit, item) {
        Ok(steps) => steps,
        Err(fault) => return Err(fault),
    };
    Ok(GroupEntry {
        name: shape.name,
        elements,
        steps,
        by_cap: is_cap(&shape.limit),
    })
}

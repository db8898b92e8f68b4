// The entries of prefectures.

ghost use Rattle.std.specs.Prelude.{◌≡◌, ◌≤◌, ◌<◌, ℕ, None, IfOk, map, length};
ghost use Rattle.toml.specs.View.{view};
ghost use Rattle.rm_names.specs.Names.{place_of};
ghost use Rattle.rm_roster.specs.Roster.{hospitals_in};
ghost use Rattle.rm_sets.specs.Sets.{IsIn};
ghost use Rattle.rm_policy.specs.Entries.{name_of_entry};
ghost use Rattle.rm_policy.specs.Prefectures.{sum_of_targets};
ghost use Rattle.rm_policy.specs.EntryAnswers.{targets_above, FindsPrefecture, ReadsPrefectureOrder, ReadsPrefecture, ReadsPrefectureShape};

use crate::Kind;
use crate::elements::read_order;
use crate::entries::{bad_value, cap_at, has_only, optional_at, refused, text_at};
use crate::keys::Key;
use crate::sets::sum_of_targets;
use crate::top::is_flexible;
use crate::values::Shape;
use rm_base::codes::{
    GROUPS_LIMIT, MOST_GROUPS, REPEATED_ENTRY, TARGETS_ABOVE_CAP, TOO_MANY_ITEMS,
    UNKNOWN_ENTRY_NAME, UNKNOWN_KEY,
};
use rm_base::{ReadFault, Refusal};
use rm_names::Names;
use rm_roster::Roster;
use std::alloc::Global;
use toml::Value;

/// What the values of an entry say by their shapes.
#[derive(Drop)]
pub struct PrefectureShape<'a> {
    pub name: &'a str,
    pub cap: u32,
    pub order: Option<&'a [Value]>,
}

/// An entry: the name and the hospitals of its prefecture, its cap, and its order, if it has one.
#[derive(Drop)]
pub struct PrefectureEntry<'a> {
    pub name: &'a str,
    pub members: Vec<u32>,
    pub cap: u32,
    pub order: Option<Vec<u32>>,
}

// The values of an entry by their shapes, or the first refusal.
fn read_shape(value: &Value, item: u64) -> Result<PrefectureShape<'_>, Refusal>
    ensures shape { ReadsPrefectureShape item (view value.now) result }
    ensures within { IfOk result (λ s. (item ≤ 5_000) × (s.cap ≤ 1_000_000)) }
{
    if item > MOST_GROUPS as u64 {
        return Err(refused(TOO_MANY_ITEMS, item, GROUPS_LIMIT));
    }
    let known = [Key::Name, Key::Cap, Key::Order];
    if !has_only(value, &known) {
        return Err(refused(UNKNOWN_KEY, item, 0));
    }
    let Some(name) = text_at(value, Key::Name) else {
        return Err(bad_value(item, Key::Name));
    };
    let Some(cap) = cap_at(value, Key::Cap) else {
        return Err(bad_value(item, Key::Cap));
    };
    let order = match optional_at(value, Key::Order, Shape::Text, item) {
        Ok(order) => order,
        Err(refusal) => return Err(refusal),
    };
    Ok(PrefectureShape { name, cap, order })
}

// The prefecture of this name, which no entry before names.
fn find_prefecture(roster: &Roster, names: &Names, name: &str, item: u64) -> Result<u32, Refusal>
    ensures { FindsPrefecture roster.now.prefectures names.now name.now item result }
{
    let Some(p) = roster.prefectures().find(name) else {
        return Err(refused(UNKNOWN_ENTRY_NAME, item, 0));
    };
    if let Some(former) = names.find(name) {
        return Err(refused(REPEATED_ENTRY, item, former as u64 + 1));
    }
    Ok(p)
}

// The order of a prefecture, if there is one.
fn optional_order(
    alloc: Global,
    roster: &Roster,
    p: u32,
    members: &[u32],
    order: Option<&[Value]>,
    item: u64,
) -> Result<Option<Vec<u32>>, ReadFault>
    requires { members.now ≡ hospitals_in roster.now p }
    ensures { ReadsPrefectureOrder roster.now item p order.entry result }
{
    let Some(values) = order else {
        return Ok(None);
    };
    match read_order(alloc, values, roster, p, members, item) {
        Ok(order) => Ok(Some(order)),
        Err(fault) => Err(fault),
    }
}

// The sum of the targets of hospitals, where the kind is flexible and the cap is less.
fn targets_above(roster: &Roster, kind: Kind, hospitals: &[u32], cap: u32) -> Option<u64>
    requires within { (h : ℕ) → IsIn h hospitals.now → h < length roster.now.hospitals }
    requires few { length hospitals.now ≤ 10_000 }
    ensures { result ≡ targets_above kind cap (sum_of_targets roster.now hospitals.now) }
{
    if !is_flexible(kind) {
        return None;
    }
    let targets = sum_of_targets(roster, hospitals);
    if (cap as u64) < targets {
        return Some(targets);
    }
    None
}

/// The entry of a value, after the names of the entries before it, or its first refusal.
pub fn read_prefecture<'a>(
    alloc: Global,
    roster: &Roster,
    kind: Kind,
    names: &Names,
    value: &'a Value,
) -> Result<PrefectureEntry<'a>, ReadFault>
    ensures entry { ReadsPrefecture roster.now kind names.now (view value.now) result }
    ensures new { IfOk result (λ e. place_of names.now (name_of_entry (view value.now)) ≡ None) }
    ensures few { IfOk result (λ e. (length names.now < 5_000) × (e.cap ≤ 1_000_000)) }
{
    let item = names.len() as u64 + 1;
    let shape = match read_shape(value, item) {
        Ok(shape) => shape,
        Err(refusal) => return Err(ReadFault::Refused(refusal)),
    };
    let p = match find_prefecture(roster, names, shape.name, item) {
        Ok(p) => p,
        Err(refusal) => return Err(ReadFault::Refused(refusal)),
    };
    let Ok(members) = roster.hospitals_in(p).to_vec(alloc) else {
        return Err(ReadFault::NoMemory);
    };
    let order = match optional_order(alloc, roster, p, &members, shape.order, item) {
        Ok(order) => order,
        Err(fault) => return Err(fault),
    };
    if let Some(targets) = targets_above(roster, kind, &members, shape.cap) {
        return Err(ReadFault::Refused(refused(TARGETS_ABOVE_CAP, item, targets)));
    }
    Ok(PrefectureEntry {
        name: shape.name,
        members,
        cap: shape.cap,
        order,
    })
}

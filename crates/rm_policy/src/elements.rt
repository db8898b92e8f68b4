// Arrays of names: each element is to hold a known one.

ghost use Rattle.std.specs.Prelude.{◌≡◌, ◌+◌, ◌<◌, ◌^◌, [], get_or, map, length, not, false, IfOk, IfSome};
ghost use Rattle.std.specs.List.{list_any};
ghost use Rattle.toml.specs.View.{view};
ghost use Rattle.rm_base.specs.Checks.{checks_of, first_of};
ghost use Rattle.rm_policy.specs.Answers.{AreMarks, ReadsNumbers, ReadsOrder, ReadsOrderElements, fits_marked};
ghost use Rattle.rm_policy.specs.Entries.{name_checks, number_named, numbers_of};
ghost use Rattle.rm_roster.specs.Roster.{hospitals_in};

use crate::entries::refused;
use rm_base::ReadFault;
use rm_base::codes::{UNKNOWN_ENTRY_NAME, WRONG_ORDER};
use rm_names::Names;
use rm_roster::Roster;
use std::alloc::Global;
use toml::Value;

// The number of the name that an element holds.
#[tactic(auto, using(crate::proofs::ElementLemmas::place_below))]
fn number_of(value: &Value, names: &Names) -> Option<u32>
    ensures number { result ≡ number_named names.now (view value.now) }
    ensures below { IfSome result (λ n. n < length names.now) }
{
    match value.as_str() {
        Some(text) => names.find(text),
        None => None,
    }
}

/// The numbers of the names that the elements of an array hold, where so many elements of the entry stand before it.
pub fn read_names(
    alloc: Global,
    values: &[Value],
    names: &Names,
    item: u64,
    first: u64,
) -> Result<Vec<u32>, ReadFault>
    requires { first + length values.now < 2 ^ 64 }
    ensures { ReadsNumbers (first_of (checks_of (name_checks names.now item first) (map view values.now))) (numbers_of names.now (map view values.now)) result }
{
    let mut numbers = Vec::new(alloc);
    for j in 0..values.len() {
        let Some(n) = number_of(&values[j], names) else {
            let element = first + j as u64 + 1;
            return Err(ReadFault::Refused(refused(UNKNOWN_ENTRY_NAME, item, element)));
        };
        if numbers.push(n).is_err() {
            return Err(ReadFault::NoMemory);
        }
    }
    Ok(numbers)
}

// Whether a hospital is marked as named.
fn is_named(named: &[bool], h: u32) -> bool
    ensures { result ≡ get_or named.now h false }
{
    match named.get(h as usize) {
        Some(named) => *named,
        None => false,
    }
}

// Whether a hospital is one of a prefecture, and not marked as named before.
fn fits(roster: &Roster, p: u32, named: &[bool], number: Option<u32>) -> bool
    requires { IfSome number (λ h. h < length roster.now.hospitals) }
    ensures { result ≡ fits_marked roster.now p named.now number }
{
    let Some(h) = number else {
        return false;
    };
    roster.prefecture_of(h) == p && !is_named(named, h)
}

// Whether a hospital of these is not marked as named.
fn is_missing(hospitals: &[u32], named: &[bool]) -> bool
    ensures { result ≡ list_any (λ h. not (get_or named.now h false)) hospitals.now }
{
    hospitals.iter().any(|h| !is_named(named, *h))
}

// The hospitals that the elements of an order name: each is one of the prefecture, and stands once. They are marked.
fn read_order_elements(
    alloc: Global,
    values: &[Value],
    roster: &Roster,
    p: u32,
    item: u64,
    named: &mut [bool],
) -> Result<Vec<u32>, ReadFault>
    requires none { AreMarks named.old [] }
    requires each { length named.old ≡ length roster.now.hospitals }
    ensures reads { ReadsOrderElements roster.now item p (map view values.now) result }
    ensures marks { IfOk result (λ order. AreMarks named.new order.items) }
{
    let mut order = Vec::new(alloc);
    for j in 0..values.len() {
        let number = number_of(&values[j], roster.hospitals());
        if !fits(roster, p, named, number) {
            let element = j as u64 + 1;
            return Err(ReadFault::Refused(refused(WRONG_ORDER, item, element)));
        }
        let Some(h) = number else { unreachable!() };
        if order.push(h).is_err() {
            return Err(ReadFault::NoMemory);
        }
        named[h as usize] = true;
    }
    Ok(order)
}

/// The order of a prefecture: its hospitals, each once.
pub fn read_order(
    alloc: Global,
    values: &[Value],
    roster: &Roster,
    p: u32,
    members: &[u32],
    item: u64,
) -> Result<Vec<u32>, ReadFault>
    requires { members.now ≡ hospitals_in roster.now p }
    ensures { ReadsOrder roster.now item p (map view values.now) result }
{
    let Ok(mut named) = vec![in alloc; false; roster.hospitals().len() as usize] else {
        return Err(ReadFault::NoMemory);
    };
    let order = match read_order_elements(alloc, values, roster, p, item, &mut named) {
        Ok(order) => order,
        Err(fault) => return Err(fault),
    };
    if is_missing(members, &named) {
        let element = values.len() as u64 + 1;
        return Err(ReadFault::Refused(refused(WRONG_ORDER, item, element)));
    }
    Ok(order)
}

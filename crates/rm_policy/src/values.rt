// Values of a document, read by their shapes.

ghost use Rattle.std.specs.Prelude.{◌≡◌, ◌≤◌, Some, None, map, option_map, is_some, IfSome};
ghost use Rattle.std.specs.List.{list_all};
ghost use Rattle.toml.specs.Data.{as_str, as_integer};
ghost use Rattle.toml.specs.View.{view};
ghost use Rattle.rm_policy.specs.Entries.{value_at};
ghost use Rattle.rm_policy.specs.Answers.{ReadsPair};
ghost use Rattle.rm_policy.specs.Values.{elements, elements_of, has_shape, pair, run_written, run_with, kind, kind_named, ties, ties_named, version, version_numbered, cap, up_to};

use crate::keys::Key;
use crate::{Kind, Ties};
use rm_base::codes::GREATEST_CAP;
use rm_market::Run;
use toml::Value;

/// What each element of an array is.
#[derive(Clone, Copy, Debug, PartialEq, Eq)]
pub enum Shape {
    Table,
    Text,
    Pair,
    Run,
}

/// The version of the language.
const VERSION: i64 = 1;

/// The value at a key.
pub fn value_at(value: &Value, key: Key) -> Option<&Value>
    ensures { option_map (λ v. view v.now) result ≡ value_at key (view value.now) }
{
    value.get(key.text())
}

/// The elements of an array.
#[tactic(auto, using(crate::proofs::ValueLemmas::list_of_items))]
pub fn elements(value: &Value) -> Option<&[Value]>
    ensures { option_map (λ s. map view s.now) result ≡ elements (view value.now) }
{
    match value.as_array() {
        Some(array) => Some(array.as_slice()),
        None => None,
    }
}

// The kind of this name.
fn kind_named(text: &str) -> Option<Kind>
    ensures { result ≡ kind_named text.now }
{
    if text == "flexible" {
        return Some(Kind::Flexible);
    }
    if text == "steps" {
        return Some(Kind::Steps);
    }
    None
}

/// The kind of a policy.
pub fn kind(value: &Value) -> Option<Kind>
    ensures { result ≡ kind (view value.now) }
{
    match value.as_str() {
        Some(text) => kind_named(text),
        None => None,
    }
}

// The tie order of this name.
fn ties_named(text: &str) -> Option<Ties>
    ensures { result ≡ ties_named text.now }
{
    if text == "by-rank" {
        return Some(Ties::ByRank);
    }
    if text == "by-hospital" {
        return Some(Ties::ByHospital);
    }
    if text == "listed" {
        return Some(Ties::Listed);
    }
    None
}

/// The tie order of a policy.
pub fn ties(value: &Value) -> Option<Ties>
    ensures { result ≡ ties (view value.now) }
{
    match value.as_str() {
        Some(text) => ties_named(text),
        None => None,
    }
}

// A number that the version may be.
fn version_numbered(number: i64) -> Option<i64>
    ensures { result ≡ version_numbered number }
{
    if number == VERSION {
        Some(number)
    } else {
        None
    }
}

/// The version of the language.
pub fn version(value: &Value) -> Option<i64>
    ensures { result ≡ version (view value.now) }
{
    match value.as_integer() {
        Some(number) => version_numbered(number),
        None => None,
    }
}

// A number that a cap may be.
fn cap_numbered(number: i64) -> Option<u32>
    ensures cap { result ≡ up_to 1_000_000 number }
    ensures within { IfSome result (λ n. n ≤ 1_000_000) }
{
    if 0 <= number && number <= GREATEST_CAP as i64 {
        Some(number as u32)
    } else {
        None
    }
}

/// The cap of an entry.
pub fn cap(value: &Value) -> Option<u32>
    ensures cap { result ≡ cap (view value.now) }
    ensures within { IfSome result (λ n. n ≤ 1_000_000) }
{
    match value.as_integer() {
        Some(number) => cap_numbered(number),
        None => None,
    }
}

/// A pair of a listed tie order: the names of a doctor and of a hospital.
#[derive(Drop)]
pub struct NamedPair<'a> {
    pub doctor: &'a str,
    pub hospital: &'a str,
}

/// A pair of texts.
pub fn pair(value: &Value) -> Option<NamedPair<'_>>
    ensures { ReadsPair (pair (view value.now)) result }
{
    let Some(values) = elements(value) else {
        return None;
    };
    let [first, second] = values else {
        return None;
    };
    let Some(doctor) = first.as_str() else {
        return None;
    };
    let Some(hospital) = second.as_str() else {
        return None;
    };
    Some(NamedPair { doctor, hospital })
}

// A run of these numbers, where all are there.
fn run_with(value: Option<i64>, count: Option<i64>, fall: Option<i64>) -> Option<Run>
    ensures { result ≡ run_with value count fall }
{
    let Some(value) = value else {
        return None;
    };
    let Some(count) = count else {
        return None;
    };
    let Some(fall) = fall else {
        return None;
    };
    Some(Run { value, fall, count })
}

/// A run: value and count, or value, count and fall.
pub fn run(value: &Value) -> Option<Run>
    ensures { result ≡ run_written (view value.now) }
{
    let Some(values) = elements(value) else {
        return None;
    };
    match values {
        [value, count] => run_with(value.as_integer(), count.as_integer(), Some(0)),
        [value, count, fall] => {
            run_with(value.as_integer(), count.as_integer(), fall.as_integer())
        }
        _ => None,
    }
}

// Whether a value has a shape.
fn has_shape(value: &Value, shape: Shape) -> bool
    ensures { result ≡ has_shape shape (view value.now) }
{
    match shape {
        Shape::Table => value.is_table(),
        Shape::Text => value.is_str(),
        Shape::Pair => pair(value).is_some(),
        Shape::Run => run(value).is_some(),
    }
}

// Whether all values have a shape.
fn all_have(values: &[Value], shape: Shape) -> bool
    ensures { result ≡ list_all (has_shape shape) (map view values.now) }
{
    for i in 0..values.len() {
        if !has_shape(&values[i], shape) {
            return false;
        }
    }
    true
}

/// The elements of an array, where each has a shape.
pub fn elements_of(value: &Value, shape: Shape) -> Option<&[Value]>
    ensures { option_map (λ s. map view s.now) result ≡ elements_of shape (view value.now) }
{
    let Some(values) = elements(value) else {
        return None;
    };
    if !all_have(values, shape) {
        return None;
    }
    Some(values)
}

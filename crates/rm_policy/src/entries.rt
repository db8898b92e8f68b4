// The keys of a table, and what their values are.

ghost use Rattle.std.specs.Prelude.{◌≡◌, ◌≤◌, Option, List, Some, None, [], ◌∷◌, map, option_map, is_none, unwrap_or, not, IfSome, true};
ghost use Rattle.std.specs.List.{list_all, list_any};
ghost use Rattle.std.specs.Str.{bytes_eq};
ghost use Rattle.toml.specs.Data.{as_str};
ghost use Rattle.toml.specs.View.{view, table_view};
ghost use Rattle.rm_policy.specs.Keys.{key_text, key_number};
ghost use Rattle.rm_policy.specs.Entries.{policy_refusal, bad_value, value_at, read_at, is_present, optional, elements_at, is_key_among};
ghost use Rattle.rm_policy.specs.Values.{keys_of, keys_present, elements_of, cap};
ghost use Rattle.rm_policy.specs.Answers.{FindsArray, ReadsList, ReadsOptional};

use crate::keys::Key;
use crate::values::{Shape, cap, elements_of, value_at};
use rm_base::Refusal;
use rm_base::codes::{BAD_VALUE, POLICY_FILE};
use toml::{Table, Value};

/// A refusal of the policy: its code, its item and a number.
pub fn refused(code: u8, item: u64, b: u64) -> Refusal
    ensures { result ≡ policy_refusal code item b }
{
    Refusal {
        code,
        file: POLICY_FILE,
        a: item,
        b,
    }
}

/// The refusal of the value at a key.
pub fn bad_value(item: u64, key: Key) -> Refusal
    ensures { result ≡ bad_value item key }
{
    refused(BAD_VALUE, item, key.number())
}

// Whether a text is one of these keys.
fn is_key_among(known: &[Key], text: &str) -> bool
    ensures { result ≡ is_key_among known.now text.now }
{
    known.iter().any(|key| text == key.text())
}

// Whether a table has no other keys than these.
fn table_has_only(table: &Table, known: &[Key]) -> bool
    ensures { result ≡ list_all (is_key_among known.now) (keys_present (table_view table.now)) }
{
    for (key, _value) in table.iter() {
        if !is_key_among(known, key.as_str()) {
            return false;
        }
    }
    true
}

/// Whether a table has no other keys than these.
pub fn has_only(value: &Value, known: &[Key]) -> bool
    ensures { result ≡ list_all (is_key_among known.now) (keys_of (view value.now)) }
{
    match value.as_table() {
        Some(table) => table_has_only(table, known),
        None => true,
    }
}

/// What stands at a key that may be absent.
#[derive(Drop)]
pub enum Found<'a> {
    Absent,
    Bad,
    Good(&'a [Value]),
}

/// The elements of the array at a key, where each has a shape.
pub fn array_at(value: &Value, key: Key, shape: Shape) -> Found<'_>
    ensures { FindsArray shape key (view value.now) result }
{
    let Some(found) = value_at(value, key) else {
        return Found::Absent;
    };
    match elements_of(found, shape) {
        Some(values) => Found::Good(values),
        None => Found::Bad,
    }
}

/// The text at a key.
pub fn text_at(value: &Value, key: Key) -> Option<&str>
    ensures { option_map (λ s. s.now) result ≡ read_at as_str key (view value.now) }
{
    let Some(found) = value_at(value, key) else {
        return None;
    };
    found.as_str()
}

/// The cap at a key.
pub fn cap_at(value: &Value, key: Key) -> Option<u32>
    ensures cap { result ≡ read_at cap key (view value.now) }
    ensures within { IfSome result (λ n. n ≤ 1_000_000) }
{
    let Some(found) = value_at(value, key) else {
        return None;
    };
    cap(found)
}

/// Whether a key is there.
pub fn is_present(value: &Value, key: Key) -> bool
    ensures { result ≡ is_present key (view value.now) }
{
    value_at(value, key).is_some()
}

/// The elements of the array at a key, none where it is absent.
pub fn list_at(value: &Value, key: Key, shape: Shape, item: u64) -> Result<&[Value], Refusal>
    ensures { ReadsList (optional (elements_of shape) key item (view value.now)) (elements_at (elements_of shape) key (view value.now)) result }
{
    match array_at(value, key, shape) {
        Found::Absent => Ok(&[]),
        Found::Good(values) => Ok(values),
        Found::Bad => Err(bad_value(item, key)),
    }
}

/// The elements of the array at a key, if it is there.
pub fn optional_at(
    value: &Value,
    key: Key,
    shape: Shape,
    item: u64,
) -> Result<Option<&[Value]>, Refusal>
    ensures { ReadsOptional (optional (elements_of shape) key item (view value.now)) (read_at (elements_of shape) key (view value.now)) result }
{
    match array_at(value, key, shape) {
        Found::Absent => Ok(None),
        Found::Good(values) => Ok(Some(values)),
        Found::Bad => Err(bad_value(item, key)),
    }
}

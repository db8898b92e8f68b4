// The top of a policy.

ghost use Rattle.std.specs.Prelude.{◌≡◌, ◌&&◌, Some, None, not, option_map, unwrap_or};
ghost use Rattle.rm_base.specs.Checks.{first_of};
ghost use Rattle.toml.specs.View.{view};
ghost use Rattle.rm_policy.specs.Entries.{policy_refusal, is_present, elements_at, read_at};
ghost use Rattle.rm_policy.specs.Keys.{key_number};
ghost use Rattle.rm_policy.specs.Values.{kind, pairs, version};
ghost use Rattle.rm_policy.specs.Top.{is_flexible, are_listed, listed_check, top_checks};
ghost use Rattle.rm_policy.specs.Answers.{ReadsList, ReadsTies, ReadsTop};

use crate::entries::{Found, array_at, bad_value, has_only, is_present, list_at, refused};
use crate::keys::Key;
use crate::values::{Shape, kind, ties, value_at, version};
use crate::{Kind, Ties};
use rm_base::Refusal;
use rm_base::codes::{KEY_NOT_FOR_KIND, UNKNOWN_KEY};
use toml::Value;

/// What the top of a policy says: its kind, its tie order, and the elements of its arrays.
#[derive(Drop)]
pub struct Top<'a> {
    pub kind: Kind,
    pub ties: Ties,
    pub listed: &'a [Value],
    pub prefectures: &'a [Value],
    pub groups: &'a [Value],
    pub hospitals: &'a [Value],
}

// The version at its key.
fn version_at(top: &Value) -> Option<i64>
    ensures { result ≡ read_at version Key.Version (view top.now) }
{
    match value_at(top, Key::Version) {
        Some(found) => version(found),
        None => None,
    }
}

// The kind at its key.
fn kind_at(top: &Value) -> Option<Kind>
    ensures { result ≡ read_at kind Key.Kind (view top.now) }
{
    match value_at(top, Key::Kind) {
        Some(found) => kind(found),
        None => None,
    }
}

// The tie order at its key, by rank where the key is absent; None where the value is bad.
fn ties_at(top: &Value) -> Option<Ties>
    ensures { ReadsTies (view top.now) result }
{
    match value_at(top, Key::Ties) {
        Some(found) => ties(found),
        None => Some(Ties::ByRank),
    }
}

// The pairs of a listed tie order, which must be there where the ties are listed.
fn listed_at(top: &Value, ties: Ties) -> Result<&[Value], Refusal>
    ensures { ReadsList (listed_check ties (view top.now)) (elements_at pairs Key.Listed (view top.now)) result }
{
    match array_at(top, Key::Listed, Shape::Pair) {
        Found::Good(values) => Ok(values),
        Found::Bad => Err(bad_value(0, Key::Listed)),
        Found::Absent => match ties {
            Ties::Listed => Err(bad_value(0, Key::Listed)),
            _ => Ok(&[]),
        },
    }
}

// Whether the ties are listed.
fn are_listed(ties: Ties) -> bool
    ensures { result ≡ are_listed ties }
{
    match ties {
        Ties::Listed => true,
        _ => false,
    }
}

/// Whether the kind is flexible.
pub fn is_flexible(kind: Kind) -> bool
    ensures { result ≡ is_flexible kind }
{
    match kind {
        Kind::Flexible => true,
        Kind::Steps => false,
    }
}

// Whether a key is there and may not be.
fn is_wrong(top: &Value, key: Key, allowed: bool) -> bool
    ensures { result ≡ (not allowed && is_present key (view top.now)) }
{
    if allowed {
        return false;
    }
    is_present(top, key)
}

// The refusal of a key that may not be there.
fn not_for_kind(key: Key) -> Refusal
    ensures { result ≡ policy_refusal KEY_NOT_FOR_KIND 0 (key_number key) }
{
    refused(KEY_NOT_FOR_KIND, 0, key.number())
}

/// What the top of a policy says, or its first refusal.
pub fn read_top(top: &Value) -> Result<Top<'_>, Refusal>
    ensures { ReadsTop (view top.now) result }
{
    let known = [
        Key::Version,
        Key::Kind,
        Key::Ties,
        Key::Listed,
        Key::Prefecture,
        Key::Group,
        Key::Hospital,
    ];
    if !has_only(top, &known) {
        return Err(refused(UNKNOWN_KEY, 0, 0));
    }
    let Some(_version) = version_at(top) else {
        return Err(bad_value(0, Key::Version));
    };
    let Some(kind) = kind_at(top) else {
        return Err(bad_value(0, Key::Kind));
    };
    let Some(ties) = ties_at(top) else {
        return Err(bad_value(0, Key::Ties));
    };
    let listed = match listed_at(top, ties) {
        Ok(values) => values,
        Err(refusal) => return Err(refusal),
    };
    let prefectures = match list_at(top, Key::Prefecture, Shape::Table, 0) {
        Ok(values) => values,
        Err(refusal) => return Err(refusal),
    };
    let groups = match list_at(top, Key::Group, Shape::Table, 0) {
        Ok(values) => values,
        Err(refusal) => return Err(refusal),
    };
    let hospitals = match list_at(top, Key::Hospital, Shape::Table, 0) {
        Ok(values) => values,
        Err(refusal) => return Err(refusal),
    };
    if is_wrong(top, Key::Listed, are_listed(ties)) {
        return Err(not_for_kind(Key::Listed));
    }
    if is_wrong(top, Key::Group, !is_flexible(kind)) {
        return Err(not_for_kind(Key::Group));
    }
    if is_wrong(top, Key::Hospital, !is_flexible(kind)) {
        return Err(not_for_kind(Key::Hospital));
    }
    Ok(Top {
        kind,
        ties,
        listed,
        prefectures,
        groups,
        hospitals,
    })
}

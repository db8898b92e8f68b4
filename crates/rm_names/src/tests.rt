// Names of each kind once, and a key that another name has.

use super::*;
use crate::search::{find_among, kept_key};
use crate::texts::Texts;
use indexmap::IndexSet;
use rm_base::NoMemory;
use std::alloc::Global;
use std::test::Fail;

// Names of no byte, of one, of the most bytes of a short name, of one more, and of many; of each kind two that differ in one byte.
const NAMES: [&str; 8] = [
    "",
    "\0",
    "abcdefg",
    "abcdefh",
    "abcdefgh",
    "abcdefgi",
    "東京都立墨東病院 あ",
    "東京都立墨東病院 い",
];

// Whether a name is not found, is then added with this number, and is there when it is added again.
fn adds(names: &mut Names, name: &str, n: u32) -> bool {
    if names.find(name).is_some() || names.len() > 100 || names.add(name) != Added::Added(n) {
        return false;
    }
    names.len() <= 100 && names.add(name) == Added::There(n)
}

// Whether a name has this number.
fn is_at(names: &Names, name: &str, n: u32) -> bool {
    names.find(name) == Some(n) && n < names.len() && names.name(n) == name
}

// Whether no name's number is another's.
fn keeps(mut names: Names) -> bool {
    for n in 0..NAMES.len() {
        if !adds(&mut names, NAMES[n], n as u32) {
            return false;
        }
    }
    for n in 0..NAMES.len() {
        if !is_at(&names, NAMES[n], n as u32) {
            return false;
        }
    }
    names.find("abcdef").is_none() && names.find("abcdefgj").is_none()
}

#[test]
fn keeps_names_of_each_kind(rt: HostRuntime) -> Result<(), Fail> {
    assert!(rt; keeps(Names::new(rt.alloc())));
    assert!(rt; keeps(Names::with_capacity(rt.alloc(), 8)?));
    Ok(())
}

// Whether a name is listed exactly where its key is another's, and is then found.
fn lists(alloc: Global) -> Result<bool, NoMemory> {
    let mut keys = IndexSet::new(alloc);
    let mut others = Vec::new(alloc);
    let mut texts = Texts::new(alloc);
    let first = kept_key(&keys, &mut others, 5, 0)?;
    texts.push(b"first")?;
    if keys.insert(first).is_err() || first != 5 || !others.is_empty() {
        return Ok(false);
    }
    let second = kept_key(&keys, &mut others, 5, 1)?;
    texts.push(b"second")?;
    let found = find_among(&texts, &others, b"second");
    Ok(
        second == (3 << 62) + 1
            && found == Some(1)
            && find_among(&texts, &others, b"first").is_none(),
    )
}

#[test]
fn lists_names_whose_key_is_another_s(rt: HostRuntime) -> Result<(), Fail> {
    assert!(rt; lists(rt.alloc())?);
    Ok(())
}

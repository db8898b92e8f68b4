// Names with their numbers.

ghost use Rattle.std.specs.Prelude.{◌≡◌, ◌<◌, ◌≤◌, [], ◌∷◌, ◌++◌, length, slice_get, Some, None, IfOk, OnErr};
ghost use Rattle.rm_names.specs.Names.{place_of, Adds, AreDistinct};
ghost use Rattle.rm_base.specs.Text.{Text};
ghost use Rattle.rm_names.specs.Keys.{IsKeyOf};

use crate::keys::{LEAST_LONG, is_short, key_of};
use crate::search::{find_among, is_at, kept_key};
use crate::texts::Texts;
use indexmap::IndexSet;
use rm_base::NoMemory;
use std::alloc::Global;
use std::marker::Model;
use std::str;

// For how many bytes of each name there is room at first.
const ROOM: usize = 8;

/// What adding a name answers.
#[derive(Clone, Copy, Debug, PartialEq, Eq)]
pub enum Added {
    /// The name was added, and has this number.
    Added(u32),
    /// The name was held before, with this number.
    There(u32),
    /// Memory was wanting, and the names are as before.
    NoMemory,
}

/// A list of distinct names, each with its number, which counts from 0.
#[derive(Drop)]
pub struct Names {
    // By number the key of each name, or a spare one.
    keys: IndexSet<u64>,
    // The numbers of the names that have spare keys. There may be more.
    others: Vec<u32>,
    texts: Texts,
}

impl Model for Names {
    ghost use Rattle.std.specs.Prelude.{List, ℕ};
    ghost use Rattle.rm_names.specs.Keyed.{AreKeyed};

    ghost Value = { List (List ℕ) };

    ghost view = { λ s. s.texts };

    ghost invariant = { λ s. AreKeyed s.texts s.keys.keys s.others.items };
}

impl Names {
    /// Holds no name.
    pub fn new(alloc: Global) -> Names
        ensures { result ≡ [] }
    {
        Names {
            keys: IndexSet::new(alloc),
            others: Vec::new(alloc),
            texts: Texts::new(alloc),
        }
    }

    /// Holds no name, and has room for so many, from 0. NoMemory is the one error.
    pub fn with_capacity(alloc: Global, count: u32) -> Result<Names, NoMemory>
        ensures { IfOk result (λ names. names ≡ []) }
    {
        let keys = IndexSet::with_capacity(alloc, count as usize)?;
        let texts = Texts::with_capacity(alloc, count, count as usize * ROOM)?;
        Ok(Names {
            keys,
            others: Vec::new(alloc),
            texts,
        })
    }

    /// Adds a name that is not held, as the last; fewer than 4,000,000,000 are held. Where it is held, its number is answered
    /// and nothing changes.
    pub fn add(&mut self, name: &str) -> Added
        requires { length self.old < 4_000_000_000 }
        ensures { Adds self.old name.now self.new result }
    {
        let key = key_of(name.as_bytes());
        if let Some(n) = self.find_by(name.as_bytes(), key) {
            return Added::There(n);
        }
        match self.push(name, key) {
            Ok(n) => Added::Added(n),
            Err(_) => Added::NoMemory,
        }
    }

    // Adds a name that is not held, and whose key this is, as the last.
    fn push(&mut self, name: &str, key: u64) -> Result<u32, NoMemory>
        requires few { length self.old < 4_000_000_000 }
        requires new { place_of self.old name.now ≡ None }
        requires key { IsKeyOf key name.now }
        ensures added { IfOk result (λ n. (n ≡ length self.old) × (self.new ≡ self.old ++ name.now ∷ [])) }
        ensures unchanged { OnErr result (self.new ≡ self.old) }
    {
        let n = self.texts.len();
        self.keys.reserve(1)?;
        let kept = kept_key(&self.keys, &mut self.others, key, n)?;
        self.texts.push(name.as_bytes())?;
        match self.keys.insert(kept) {
            Ok(_) => Ok(n),
            Err(_) => unreachable!(),
        }
    }

    /// The number of a name. None exactly where it is not held.
    pub fn find(&self, name: &str) -> Option<u32>
        ensures { result ≡ place_of self.now name.now }
    {
        self.find_by(name.as_bytes(), key_of(name.as_bytes()))
    }

    /// The number of a name whose key this is. None exactly where it is not held.
    pub fn find_by(&self, bytes: &[u8], key: u64) -> Option<u32>
        requires { IsKeyOf key bytes.now }
        ensures { result ≡ place_of self.now bytes.now }
    {
        if is_short(key) {
            return self.find_short(key);
        }
        let Some(n) = self.keys.get_index_of(&key) else {
            return find_among(&self.texts, &self.others, bytes);
        };
        let n = n as u32;
        if is_at(&self.texts, n, bytes) {
            return Some(n);
        }
        find_among(&self.texts, &self.others, bytes)
    }

    /// The number of a short name, by its key alone. None exactly where it is not held.
    pub fn find_short(&self, key: u64) -> Option<u32>
        requires { key < LEAST_LONG }
        ensures { (name : Text) → IsKeyOf key name → result ≡ place_of self.now name }
    {
        match self.keys.get_index_of(&key) {
            Some(n) => Some(n as u32),
            None => None,
        }
    }

    /// How many names are held. They are distinct.
    pub fn len(&self) -> u32
        ensures count { result ≡ length self.now }
        ensures few { result ≤ 4_000_000_000 }
        ensures distinct { AreDistinct self.now }
    {
        self.texts.len()
    }

    /// The name with the number n, which finds that number.
    pub fn name(&self, n: u32) -> &str
        requires { n < length self.now }
        ensures name { slice_get self.now n ≡ Some result.now }
        ensures found { place_of self.now result.now ≡ Some n }
    {
        match str::from_utf8(self.texts.text(n)) {
            Ok(text) => text,
            Err(_) => unreachable!(),
        }
    }
}

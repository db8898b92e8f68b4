// Groups that are built, one entry after another.

ghost use Rattle.std.specs.Prelude.{◌≡◌, ◌≤◌, ◌<◌, ◌+◌, None, OnOk, map, length};
ghost use Rattle.toml.specs.View.{view};
ghost use Rattle.rm_names.specs.Names.{place_of};
ghost use Rattle.rm_policy.specs.EntryAnswers.{AddsPrefecture, ReadsPrefectures, items_of};
ghost use Rattle.rm_policy.specs.GroupAnswers.{AddsGroup, ReadsGroups};
ghost use Rattle.rm_policy.specs.Groups.{no_groups, no_prefectures, with_entry};

use crate::Kind;
use crate::groups::read_group;
use crate::prefectures::read_prefecture;
use crate::sets::union;
use rm_base::{NoMemory, ReadFault};
use rm_names::{Added, Names};
use rm_roster::Roster;
use rm_steps::Steps;
use std::alloc::{AllocError, Global};
use std::marker::Model;
use toml::Value;

/// Groups: the name, the hospitals and the steps of each, and whether they are given by a cap.
#[derive(Drop)]
pub struct Groups {
    pub names: Names,
    pub members: Vec<Vec<u32>>,
    pub steps: Vec<Steps>,
    pub by_cap: Vec<bool>,
}

impl Model for Groups {
    ghost use Rattle.rm_policy.specs.Groups.{GroupsData};
    ghost use Rattle.std.specs.Prelude.{map};

    ghost Value = { GroupsData };

    ghost view = { λ g. record { names = g.names; members = map (λ m. m.items) g.members.items; steps = g.steps.items; by_cap = g.by_cap.items } };
}

impl Groups {
    // No group.
    fn new(alloc: Global) -> Groups
        ensures { result ≡ no_groups }
    {
        Groups {
            names: Names::new(alloc),
            members: Vec::new(alloc),
            steps: Vec::new(alloc),
            by_cap: Vec::new(alloc),
        }
    }

    // Adds a group whose name is new.
    fn push(
        &mut self,
        name: &str,
        members: Vec<u32>,
        steps: Steps,
        by_cap: bool,
    ) -> Result<(), NoMemory>
        requires few { length self.old.names < 4_000_000_000 }
        requires new { place_of self.old.names name.now ≡ None }
        ensures { OnOk result (self.new ≡ with_entry self.old name.now members.items steps by_cap) }
    {
        let Added::Added(_) = self.names.add(name) else {
            return Err(AllocError);
        };
        self.members.push(members)?;
        self.steps.push(steps)?;
        self.by_cap.push(by_cap)?;
        Ok(())
    }
}

/// The groups of prefecture entries, and their orders.
#[derive(Drop)]
pub struct Prefectures {
    pub groups: Groups,
    pub orders: Vec<Option<Vec<u32>>>,
}

impl Model for Prefectures {
    ghost use Rattle.rm_policy.specs.Groups.{PrefecturesData};
    ghost use Rattle.rm_policy.specs.EntryAnswers.{items_of};
    ghost use Rattle.std.specs.Prelude.{map};

    ghost Value = { PrefecturesData };

    ghost view = { λ p. record { groups = p.groups; orders = map items_of p.orders.items } };
}

/// The parts of prefecture entries.
#[derive(Drop)]
pub struct PrefectureParts {
    pub groups: Groups,
    pub orders: Vec<Option<Vec<u32>>>,
}

impl Prefectures {
    /// The groups, and the orders.
    pub fn into_parts(self) -> PrefectureParts
        ensures groups { result.groups ≡ self.groups }
        ensures orders { map items_of result.orders.items ≡ self.orders }
    {
        PrefectureParts {
            groups: self.groups,
            orders: self.orders,
        }
    }

    // No entry.
    fn new(alloc: Global) -> Prefectures
        ensures { result ≡ no_prefectures }
    {
        Prefectures {
            groups: Groups::new(alloc),
            orders: Vec::new(alloc),
        }
    }

    // Adds the entry of a value.
    fn add(
        &mut self,
        alloc: Global,
        roster: &Roster,
        kind: Kind,
        value: &Value,
    ) -> Result<(), ReadFault>
        ensures entry { AddsPrefecture roster.now kind self.old (view value.now) self.new result }
        ensures few { OnOk result (length self.old.groups.names < 5_000) }
    {
        let entry = match read_prefecture(alloc, roster, kind, &self.groups.names, value) {
            Ok(entry) => entry,
            Err(fault) => return Err(fault),
        };
        let Ok(steps) = Steps::flat(alloc, entry.cap) else {
            return Err(ReadFault::NoMemory);
        };
        let Ok(()) = self.groups.push(entry.name, entry.members, steps, true) else {
            return Err(ReadFault::NoMemory);
        };
        if self.orders.push(entry.order).is_err() {
            return Err(ReadFault::NoMemory);
        }
        Ok(())
    }

    /// The entries of values, or their first refusal.
    pub fn read(
        alloc: Global,
        roster: &Roster,
        kind: Kind,
        values: &[Value],
    ) -> Result<Prefectures, ReadFault>
        ensures entries { ReadsPrefectures roster.now kind (map view values.now) result }
        ensures few { OnOk result (length values.now ≤ 5_000) }
    {
        let mut prefectures = Prefectures::new(alloc);
        for i in 0..values.len() {
            match prefectures.add(alloc, roster, kind, &values[i]) {
                Ok(()) => {}
                Err(fault) => return Err(fault),
            }
        }
        Ok(prefectures)
    }
}

impl Groups {
    // Adds the entry of a value, where so many items and these groups stand before it.
    fn add(
        &mut self,
        alloc: Global,
        roster: &Roster,
        first: u32,
        value: &Value,
    ) -> Result<(), ReadFault>
        ensures entry { AddsGroup roster.now first self.old (view value.now) self.new result }
        ensures few { OnOk result (first + length self.old.names < 5_000) }
    {
        let entry = match read_group(alloc, roster, first, &self.names, value) {
            Ok(entry) => entry,
            Err(fault) => return Err(fault),
        };
        let Ok(members) = union(
            alloc,
            roster,
            &entry.elements.hospitals,
            &entry.elements.prefectures,
            &self.members,
            &entry.elements.groups,
        ) else {
            return Err(ReadFault::NoMemory);
        };
        let Ok(()) = self.push(entry.name, members, entry.steps, entry.by_cap) else {
            return Err(ReadFault::NoMemory);
        };
        Ok(())
    }

    /// The groups of values, where so many items stand before them, or their first refusal.
    pub fn read(
        alloc: Global,
        roster: &Roster,
        first: u32,
        values: &[Value],
    ) -> Result<Groups, ReadFault>
        requires { first ≤ 5_000 }
        ensures entries { ReadsGroups roster.now first (map view values.now) result }
        ensures few { OnOk result (first + length values.now ≤ 5_000) }
    {
        let mut groups = Groups::new(alloc);
        for i in 0..values.len() {
            match groups.add(alloc, roster, first, &values[i]) {
                Ok(()) => {}
                Err(fault) => return Err(fault),
            }
        }
        Ok(groups)
    }
}

// A policy.

ghost use Rattle.std.specs.Prelude.{◌≡◌, ◌<◌, ◌≤◌, ◌+◌, ◌++◌, [], List, Some, None, IfOk, OnOk, map, get_or, length, drop, slice_get, option_map};
ghost use Rattle.toml.specs.View.{view};
ghost use Rattle.rm_base.specs.Checks.{first_of};
ghost use Rattle.rm_names.specs.Names.{place_of};
ghost use Rattle.rm_base.specs.Reading.{Reads, Stops};
ghost use Rattle.rm_policy.specs.Groups.{groups_joined, no_groups};
ghost use Rattle.rm_policy.specs.Policy.{entry_names, group_among, group_named, plain, policy_checks, policy_of, IsPolicy, ReadsDocument, ReadsPolicy, ReadsTopEntries};
ghost use Rattle.rm_policy.specs.Values.{document_of};

use crate::entries::refused;
use crate::groups_built::{Groups, Prefectures};
use crate::hospital_steps::HospitalSteps;
use crate::listed::read_listed;
use crate::top::{Top, read_top};
use crate::{Kind, PolicyFault, Ties};
use rm_base::codes::NOT_TOML;
use rm_base::{NoMemory, ReadFault};
use rm_market::ListedPair;
use rm_names::Names;
use rm_roster::Roster;
use rm_steps::Steps;
use std::alloc::Global;
use std::marker::Model;
use toml::Value;

// The groups of a policy: those of prefecture entries, and then those of group entries.
#[derive(Drop)]
struct AllGroups {
    prefecture_names: Names,
    group_names: Names,
    members: Vec<Vec<u32>>,
    steps: Vec<Steps>,
    by_cap: Vec<bool>,
}

impl Model for AllGroups {
    ghost use Rattle.rm_policy.specs.Groups.{PolicyGroups, groups_kept};

    ghost Value = { PolicyGroups };

    ghost view = { λ g. groups_kept g.prefecture_names g.group_names g.members.items g.steps.items g.by_cap.items };
}

impl AllGroups {
    // No group.
    fn none(alloc: Global) -> AllGroups
        ensures { result ≡ record { entries = []; groups = no_groups } }
    {
        AllGroups {
            prefecture_names: Names::new(alloc),
            group_names: Names::new(alloc),
            members: Vec::new(alloc),
            steps: Vec::new(alloc),
            by_cap: Vec::new(alloc),
        }
    }

    // Groups, and then groups.
    fn join(mut prefectures: Groups, mut groups: Groups) -> Result<AllGroups, NoMemory>
        ensures { IfOk result (λ all. all ≡ record { entries = prefectures.names; groups = groups_joined prefectures groups }) }
    {
        prefectures.members.append(&mut groups.members)?;
        prefectures.steps.append(&mut groups.steps)?;
        prefectures.by_cap.append(&mut groups.by_cap)?;
        Ok(AllGroups {
            prefecture_names: prefectures.names,
            group_names: groups.names,
            members: prefectures.members,
            steps: prefectures.steps,
            by_cap: prefectures.by_cap,
        })
    }

    // The name of a group.
    fn name(&self, g: u32) -> &str
        requires { g < length self.now.groups.names }
        ensures { slice_get self.now.groups.names g ≡ Some result.now }
    {
        let count = self.prefecture_names.len();
        if g < count {
            self.prefecture_names.name(g)
        } else {
            self.group_names.name(g - count)
        }
    }

    // The number of the prefecture entry of this name.
    fn find_entry(&self, name: &str) -> Option<u32>
        ensures { result ≡ place_of self.now.entries name.now }
    {
        self.prefecture_names.find(name)
    }

    // The number of the group of this name: a group entry, or else a prefecture entry.
    fn find(&self, name: &str) -> Option<u32>
        requires { length self.now.groups.names < 4_000_000_000 }
        ensures { result ≡ group_among self.now.entries (drop (length self.now.entries) self.now.groups.names) name.now }
    {
        match self.group_names.find(name) {
            Some(k) => Some(self.prefecture_names.len() + k),
            None => self.prefecture_names.find(name),
        }
    }
}

/// What a policy says of the hospitals of a roster.
pub struct Policy {
    kind: Kind,
    ties: Ties,
    listed: Vec<ListedPair>,
    groups: AllGroups,
    orders: Vec<Option<Vec<u32>>>,
    hospital_steps: HospitalSteps,
}

// (Whoever drops one calls this, and has not to drop its parts one by one.)
impl Drop for Policy {
    fn drop(self) {
        let Policy {
            kind: _,
            ties: _,
            listed: _,
            groups: _,
            orders: _,
            hospital_steps: _,
        } = self;
    }
}

impl Model for Policy {
    ghost use Rattle.rm_policy.specs.Policy.{IsPolicyKept, PolicyData, policy_with};
    ghost use Rattle.rm_policy.specs.EntryAnswers.{items_of};
    ghost use Rattle.std.specs.Prelude.{map};

    ghost Value = { PolicyData };

    ghost view = { λ p. policy_with p.kind p.ties p.listed.items p.groups (map items_of p.orders.items) p.hospital_steps };

    ghost invariant = { λ p. IsPolicyKept p.groups.entries (policy_with p.kind p.ties p.listed.items p.groups (map items_of p.orders.items) p.hospital_steps) };
}

// The document of a text.
fn read_document(alloc: Global, text: &[u8]) -> Result<Value, ReadFault>
    ensures { ReadsDocument (document_of text.now) result }
{
    match toml::table_from_slice(alloc, text) {
        Ok(table) => Ok(Value::Table(table)),
        Err(e) => {
            if e.is_memory() {
                return Err(ReadFault::NoMemory);
            }
            Err(ReadFault::Refused(refused(NOT_TOML, 0, 0)))
        }
    }
}

// The entries of a policy: those of prefectures and of groups as groups, and those of hospitals.
#[derive(Drop)]
struct Entries {
    prefectures: Prefectures,
    groups: Groups,
    hospital_steps: HospitalSteps,
}

// The entries below a top, or their first refusal.
fn read_entries(alloc: Global, top: &Top<'_>, roster: &Roster) -> Result<Entries, ReadFault>
    ensures entries { ReadsTopEntries roster.now top.now result }
    ensures few { OnOk result (length top.now.prefectures.now + length top.now.groups.now ≤ 5_000) }
{
    let prefectures = match Prefectures::read(alloc, roster, top.kind, top.prefectures) {
        Ok(prefectures) => prefectures,
        Err(fault) => return Err(fault),
    };
    let first = top.prefectures.len() as u32;
    let groups = match Groups::read(alloc, roster, first, top.groups) {
        Ok(groups) => groups,
        Err(fault) => return Err(fault),
    };
    let first = first + top.groups.len() as u32;
    match HospitalSteps::read(alloc, roster, first, top.hospitals) {
        Ok(hospital_steps) => Ok(Entries {
            prefectures,
            groups,
            hospital_steps,
        }),
        Err(fault) => Err(fault),
    }
}

impl Policy {
    // What a document says, or its first refusal.
    fn of_document(alloc: Global, document: &Value, roster: &Roster) -> Result<Policy, ReadFault>
        ensures { Reads (first_of (policy_checks roster.now (Some (view document.now)))) (policy_of roster.now (view document.now)) result }
    {
        let top = match read_top(document) {
            Ok(top) => top,
            Err(refusal) => return Err(ReadFault::Refused(refusal)),
        };
        let entries = match read_entries(alloc, &top, roster) {
            Ok(entries) => entries,
            Err(fault) => return Err(fault),
        };
        let Ok(listed) = read_listed(alloc, roster, top.listed) else {
            return Err(ReadFault::NoMemory);
        };
        let parts = entries.prefectures.into_parts();
        let Ok(groups) = AllGroups::join(parts.groups, entries.groups) else {
            return Err(ReadFault::NoMemory);
        };
        Ok(Policy {
            kind: top.kind,
            ties: top.ties,
            listed,
            groups,
            orders: parts.orders,
            hospital_steps: entries.hospital_steps,
        })
    }

    /// Reads the text of a policy for the hospitals of a roster. `Refused` is its first refusal: no TOML, then the top, and
    /// then the entries of prefectures, of groups and of hospitals, each in the order of the file.
    pub fn read(alloc: Global, text: &[u8], roster: &Roster) -> Result<Policy, PolicyFault>
        ensures { ReadsPolicy roster.now (document_of text.now) result }
    {
        let document = match read_document(alloc, text) {
            Ok(document) => document,
            Err(fault) => return Err(fault),
        };
        match Policy::of_document(alloc, &document, roster) {
            Ok(policy) => Ok(policy),
            Err(fault) => Err(fault),
        }
    }

    /// The policy of a folder that has none: steps, ties by rank, and no entry.
    pub fn plain(alloc: Global) -> Policy
        ensures { result ≡ plain }
    {
        Policy {
            kind: Kind::Steps,
            ties: Ties::ByRank,
            listed: Vec::new(alloc),
            groups: AllGroups::none(alloc),
            orders: Vec::new(alloc),
            hospital_steps: HospitalSteps::none(alloc),
        }
    }

    /// The kind of the policy.
    pub fn kind(&self) -> Kind
        ensures { result ≡ self.now.kind }
    {
        self.kind
    }

    /// The tie order of the policy.
    pub fn ties(&self) -> Ties
        ensures { result ≡ self.now.ties }
    {
        self.ties
    }

    /// The hospitals of each group, ascending: first those of prefecture entries, then those of group entries.
    pub fn groups(&self) -> &[Vec<u32>]
        ensures groups { map (λ m. m.items) result.now ≡ self.entry.now.groups.members }
        ensures policy { IsPolicy self.entry.now }
    {
        &self.groups.members
    }

    /// The prefecture entry of the prefecture of this name. None exactly where the prefecture has no entry.
    pub fn entry(&self, prefecture: &str) -> Option<u32>
        ensures { result ≡ place_of (entry_names self.now) prefecture.now }
    {
        self.groups.find_entry(prefecture)
    }

    /// The steps of group g.
    pub fn group_steps(&self, g: u32) -> &Steps
        requires { g < length self.now.groups.members }
        ensures { slice_get self.entry.now.groups.steps g ≡ Some result.now }
    {
        &self.groups.steps[g as usize]
    }

    /// The name of group g, that of its prefecture where it is a prefecture entry.
    pub fn group_name(&self, g: u32) -> &str
        requires { g < length self.now.groups.members }
        ensures { slice_get self.entry.now.groups.names g ≡ Some result.now }
    {
        self.groups.name(g)
    }

    /// Whether group g is given by the key `cap`, as each prefecture entry is.
    pub fn by_cap(&self, g: u32) -> bool
        requires { g < length self.now.groups.members }
        ensures { slice_get self.now.groups.by_cap g ≡ Some result }
    {
        self.groups.by_cap[g as usize]
    }

    /// The group of this name: the name is looked for among the group entries and, where none of them has it, among the prefecture
    /// entries. None exactly where both lack it.
    pub fn find_group(&self, name: &str) -> Option<u32>
        ensures { result ≡ group_named self.now name.now }
    {
        self.groups.find(name)
    }

    /// The item of group g, by which refusals name it: its place among the entries of the file, from 1.
    pub fn item(&self, g: u32) -> u64
        requires { g < length self.now.groups.members }
        ensures { result ≡ g + 1 }
    {
        g as u64 + 1
    }

    /// How many of the groups are prefecture entries; they come first.
    pub fn prefecture_entries(&self) -> u32
        ensures entries { result ≡ length self.now.orders }
        ensures policy { IsPolicy self.now }
    {
        self.orders.len() as u32
    }

    /// The order of prefecture entry g: all its hospitals, each once. None exactly where the entry has none.
    pub fn order(&self, g: u32) -> Option<&[u32]>
        requires { g < length self.now.orders }
        ensures { slice_get self.entry.now.orders g ≡ Some (option_map (λ s. s.now) result) }
    {
        match &self.orders[g as usize] {
            Some(order) => Some(order.as_slice()),
            None => None,
        }
    }

    /// The steps of hospital h. None exactly where it has no entry.
    pub fn hospital_steps(&self, h: u32) -> Option<&Steps>
        ensures { option_map (λ s. s.now) result ≡ get_or self.entry.now.hospital_steps h None }
    {
        self.hospital_steps.get(h)
    }

    /// The pairs of a listed tie order, in the order of the policy; none unless the ties are listed.
    pub fn listed(&self) -> &[ListedPair]
        ensures { result.now ≡ self.entry.now.listed }
    {
        &self.listed
    }
}

//! The roster: what the files of hospitals, doctors and rank lists say.
#![tactic(auto)]

ghost use Rattle.std.specs.Prelude.{◌≡◌, ◌<◌, List, None, IfOk, get_or, length};
ghost use Rattle.rm_base.specs.Checks.{first_of};
ghost use Rattle.rm_base.specs.Reading.{Reads};
ghost use Rattle.rm_table.specs.Rows.{Row};
ghost use Rattle.rm_roster.specs.Roster.{IsRoster, hospitals_in, roster_checks, roster_joined, roster_of};

mod cells;
mod doctors;
mod hospitals;
mod items;
mod ranks;

pub use cells::wrong_cell;
use doctors::Doctors;
use hospitals::Hospitals;
use ranks::read_ranks;
use rm_base::{NoMemory, ReadFault};
use rm_lists::group;
use rm_names::Names;
use rm_ranks::Lists;
use rm_table::Table;
use std::alloc::Global;
use std::marker::Model;

/// Why no roster was read: the first refusal of the files, or want of memory.
pub type RosterFault = ReadFault;

/// What the files of hospitals, doctors and rank lists say. Hospitals and doctors are numbered from 0 in the order of their
/// rows, prefectures in the order of their first appearance.
pub struct Roster {
    hospitals: Hospitals,
    doctors: Doctors,
    ranks: Lists,
    // The hospitals of each prefecture.
    by_prefecture: rm_lists::Lists<u32>,
}

// (Whoever drops one calls this, and has not to drop its parts one by one.)
impl Drop for Roster {
    fn drop(self) {
        let Roster {
            hospitals: _,
            doctors: _,
            ranks: _,
            by_prefecture: _,
        } = self;
    }
}

impl Model for Roster {
    ghost use Rattle.std.specs.Prelude.{◌≡◌, length};
    ghost use Rattle.rm_lists.specs.Grouping.{grouped};
    ghost use Rattle.rm_roster.specs.Roster.{RosterData, IsRoster, roster_joined};

    ghost Value = { RosterData };

    ghost view = { λ r. roster_joined r.hospitals r.doctors r.ranks };

    ghost invariant = { λ r. IsRoster (roster_joined r.hospitals r.doctors r.ranks)
        × (r.by_prefecture ≡ grouped (length r.hospitals.prefectures) r.hospitals.prefecture_of) };
}

/// The law that the roster of tables which no check refuses is as `IsRoster` says. It does nothing.
pub fn accepted_tables()
    ensures { (hospitals doctors ranks : List Row) → first_of (roster_checks hospitals doctors ranks) ≡ None → IsRoster (roster_of hospitals doctors ranks) }
{}

impl Roster {
    /// The roster that three tables tell, or their first refusal: the tables in this order, in each the header and then its
    /// rows, and in a row its fields.
    pub fn read(
        alloc: Global,
        hospitals: &Table,
        doctors: &Table,
        ranks: &Table,
    ) -> Result<Roster, RosterFault>
        ensures { Reads (first_of (roster_checks hospitals.now doctors.now ranks.now)) (roster_of hospitals.now doctors.now ranks.now) result }
    {
        let hospitals = Hospitals::read(alloc, hospitals)?;
        let doctors = Doctors::read(alloc, doctors, hospitals.names())?;
        let ranks = read_ranks(alloc, ranks, hospitals.names(), doctors.names())?;
        match Roster::join(alloc, hospitals, doctors, ranks) {
            Ok(roster) => Ok(roster),
            Err(_) => Err(RosterFault::NoMemory),
        }
    }

    // The roster of what three files say.
    fn join(
        alloc: Global,
        hospitals: Hospitals,
        doctors: Doctors,
        ranks: Lists,
    ) -> Result<Roster, NoMemory>
        requires { IsRoster (roster_joined hospitals doctors ranks) }
        ensures { IfOk result (λ r. r ≡ roster_joined hospitals doctors ranks) }
    {
        let by_prefecture = group(
            alloc,
            hospitals.by_hospital(),
            hospitals.prefectures().len(),
        )?;
        Ok(Roster {
            hospitals,
            doctors,
            ranks,
            by_prefecture,
        })
    }

    /// The names of the hospitals. Here and at the other names and lists `roster` says what holds of every roster.
    pub fn hospitals(&self) -> &Names
        ensures hospitals { result.now ≡ self.entry.now.hospitals }
        ensures roster { IsRoster self.entry.now }
    {
        self.hospitals.names()
    }

    /// The names of the prefectures.
    pub fn prefectures(&self) -> &Names
        ensures prefectures { result.now ≡ self.entry.now.prefectures }
        ensures roster { IsRoster self.entry.now }
    {
        self.hospitals.prefectures()
    }

    /// The names of the doctors.
    pub fn doctors(&self) -> &Names
        ensures doctors { result.now ≡ self.entry.now.doctors }
        ensures roster { IsRoster self.entry.now }
    {
        self.doctors.names()
    }

    /// The number of the prefecture of hospital h.
    pub fn prefecture_of(&self, h: u32) -> u32
        requires { h < length self.now.hospitals }
        ensures { result ≡ get_or self.now.prefecture_of h 0 }
    {
        self.hospitals.prefecture_of(h)
    }

    /// The hospitals of prefecture p, ascending. They are found once, when the roster is read.
    pub fn hospitals_in(&self, p: u32) -> &[u32]
        requires { p < length self.now.prefectures }
        ensures hospitals { result.now ≡ hospitals_in self.entry.now p }
        ensures roster { IsRoster self.entry.now }
    {
        self.by_prefecture.list(p)
    }

    /// How many seats hospital h has, 10,000 at most.
    pub fn capacity(&self, h: u32) -> u32
        requires { h < length self.now.hospitals }
        ensures { result ≡ get_or self.now.capacities h 0 }
    {
        self.hospitals.capacity(h)
    }

    /// The target of hospital h, its capacity at most.
    pub fn target(&self, h: u32) -> u32
        requires { h < length self.now.hospitals }
        ensures { result ≡ get_or self.now.targets h 0 }
    {
        self.hospitals.target(h)
    }

    /// Per doctor, the hospitals of his list, best first.
    pub fn lists(&self) -> &Lists
        ensures lists { result.now ≡ self.entry.now.lists }
        ensures roster { IsRoster self.entry.now }
    {
        self.doctors.lists()
    }

    /// Per hospital, the doctors of its rank list, best first.
    pub fn ranks(&self) -> &Lists
        ensures ranks { result.now ≡ self.entry.now.ranks }
        ensures roster { IsRoster self.entry.now }
    {
        &self.ranks
    }
}

#[cfg(test)]
mod tests;

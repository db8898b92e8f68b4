// The numbering of contracts.

ghost use Rattle.std.specs.Prelude.{◌≡◌, ◌*◌, ◌<◌, ◌≤◌, ◌^◌, [], length, map, fold, max, take, get_or, slice_range, IfOk, IfSome};
ghost use Rattle.std.specs.List.{sum_by};
ghost use Rattle.rm_market.specs.Board.{pairs_of, number_of, hospital_of_number, doctor_of_number, owners_of_ranks};
ghost use Rattle.rm_board.specs.ByDoctor.{contracts_of_doctor};
ghost use Rattle.rm_board.specs.Numbers.{number_at};
ghost use Rattle.rm_board.specs.TieKeys.{rank_key};

use crate::doctors::{by_doctor, first_within};
use crate::hospitals::{ByHospital, RUN};
use rm_lists::Lists as AnyLists;
use rm_ranks::Lists;
use std::alloc::{AllocError, Global};
use std::marker::Model;

/// Want of memory.
pub type NoMemory = AllocError;

/// The contracts of rank lists: each pair of a doctor and a hospital that ranks him. They are numbered from 0, by hospital and
/// then by place in its rank list; so of two contracts at one hospital, the one of lower number is the better ranked.
#[derive(Drop)]
pub struct Contracts {
    by_hospital: ByHospital,
    by_doctor: AnyLists<u32>,
}

impl Model for Contracts {
    ghost use Rattle.std.specs.Prelude.{List, ℕ};
    ghost use Rattle.rm_board.specs.Numbers.{AreContracts, rank_lists};

    ghost Value = { List (List ℕ) };

    ghost view = { λ c. rank_lists c.by_hospital };

    ghost invariant = { λ c. AreContracts (rank_lists c.by_hospital) c.by_hospital c.by_doctor };
}

// How many items the lists hold.
fn items_in(lists: &Lists) -> usize
    requires { sum_by length lists.now < 4_000_000_000 }
    ensures { result ≡ sum_by length lists.now }
{
    let mut count = 0;
    for i in 0..lists.len() {
        count += lists.list(i).len();
    }
    count
}

// The numbers from one place up to another.
fn between(numbers: &[u32], start: usize, end: usize) -> &[u32]
    requires forward { start ≤ end }
    requires within { end ≤ length numbers.now }
    ensures { result.now ≡ slice_range numbers.now start end }
{
    &numbers[start..end]
}

impl Contracts {
    /// Numbers the contracts of the hospitals' rank lists, which together hold fewer than 4,000,000,000 doctors. The memory for
    /// them is in proportion to the contracts, the hospitals and the greatest doctor that is ranked.
    pub fn build(alloc: Global, ranks: &Lists) -> Result<Contracts, NoMemory>
        requires { sum_by length ranks.now < 4_000_000_000 }
        ensures { IfOk result (λ contracts. contracts ≡ ranks.now) }
    {
        let mut by_hospital = ByHospital::with_capacity(
            alloc,
            ranks.len() as usize,
            items_in(ranks),
        )?;
        for h in 0..ranks.len() {
            by_hospital.add(h, ranks.list(h))?;
        }
        by_hospital.runs.push(ranks.len())?;
        let by_doctor = by_doctor(alloc, &by_hospital.doctors)?;
        Ok(Contracts {
            by_hospital,
            by_doctor,
        })
    }

    /// How many contracts there are.
    pub fn count(&self) -> u32
        ensures count { result ≡ length (pairs_of self.now) }
        ensures few { result < 4_000_000_000 }
    {
        self.by_hospital.doctors.len() as u32
    }

    /// The doctor of contract x.
    pub fn doctor(&self, x: u32) -> u32
        requires { x < length (pairs_of self.now) }
        ensures { result ≡ doctor_of_number self.now x }
    {
        self.by_hospital.doctors[x as usize]
    }

    /// The hospital of contract x.
    pub fn hospital(&self, x: u32) -> u32
        requires { x < length (pairs_of self.now) }
        ensures hospital { result ≡ hospital_of_number self.now x }
        ensures below { result < length self.now }
    {
        let run = x as usize / RUN;
        let first = self.by_hospital.runs[run] as usize;
        let last = self.by_hospital.runs[run + 1] as usize;
        let ends = between(&self.by_hospital.starts, first + 1, last + 1);
        (first + ends.partition_point(|end| *end <= x)) as u32
    }

    /// The doctor of each contract.
    pub fn owners(&self) -> &[u32]
        ensures { result.now ≡ owners_of_ranks self.now }
    {
        &self.by_hospital.doctors
    }

    /// The number of hospitals.
    pub fn hospitals(&self) -> u32
        ensures { result ≡ length self.now }
    {
        (self.by_hospital.starts.len() - 1) as u32
    }

    // How many contracts stand before those of hospital h, or how many there are where h is the number of hospitals.
    fn start(&self, h: usize) -> u32
        requires { h ≤ length self.now }
        ensures start { result ≡ length (pairs_of (take h self.now)) }
        ensures few { length (pairs_of self.now) < 4_000_000_000 }
    {
        self.by_hospital.starts[h]
    }

    /// The rank list of hospital h.
    pub fn rank(&self, h: u32) -> &[u32]
        requires { h < length self.now }
        ensures list { result.now ≡ get_or self.now h [] }
        ensures few { length result.now < 4_000_000_000 }
    {
        let start = self.start(h as usize);
        let end = self.start(h as usize + 1);
        between(&self.by_hospital.doctors, start as usize, end as usize)
    }

    // The contract at a place of the rank list of hospital h.
    pub(crate) fn number(&self, h: u32, place: u32) -> u32
        requires hospital { h < length self.now }
        requires place { place < length (get_or self.now h []) }
        ensures { result ≡ number_at self.now place h }
    {
        self.start(h as usize) + place
    }

    // The key by rank of contract x: its place in its hospital's rank list, times the number of hospitals, plus its hospital.
    pub(crate) fn rank_key(&self, x: u32) -> u32
        requires contract { x < length (pairs_of self.now) }
        requires fits { fold max 0 (map length self.now) * length self.now < 2 ^ 32 }
        ensures { result ≡ rank_key self.now x }
    {
        let h = self.hospital(x);
        let place = x - self.start(h as usize);
        place * self.hospitals() + h
    }

    // The contracts of doctor d, ascending.
    fn of_doctor(&self, d: u32) -> &[u32]
        ensures { result.now ≡ contracts_of_doctor (owners_of_ranks self.now) d }
    {
        if d >= self.by_doctor.len() {
            return &[];
        }
        self.by_doctor.list(d)
    }

    /// The contract of doctor d and hospital h; None exactly where h doesn't rank d.
    pub fn find(&self, d: u32, h: u32) -> Option<u32>
        requires { h < length self.now }
        ensures number { result ≡ number_of self.now d h }
        ensures below { IfSome result (λ x. (x < length (pairs_of self.now)) × (x < 4_000_000_000)) }
    {
        let start = self.start(h as usize);
        let end = self.start(h as usize + 1);
        first_within(self.of_doctor(d), start, end)
    }
}

// What is counted for a report.

ghost use Rattle.std.specs.Prelude.{◌≡◌, ◌<◌, ◌≤◌, ◌+◌, ◌==◌, ◌&&◌, ℕ, [], false, length, get_or, replicate, set, IfOk, IfSome, if◌then◌else◌};
ghost use Rattle.std.specs.Option.{option_map_or};
ghost use Rattle.rm_report.specs.Counts.{AreApplicants, AreCounts, AreEach, AreMarked, hospital_key, one_more, prefecture_key};
ghost use Rattle.rm_report.specs.Report.{first_at, has_first, has_place, listed_by, placed_at};
ghost use Rattle.rm_report.specs.Texts.{AreHospitals};

use rm_base::NoMemory;
use rm_case::{Case, Places};
use std::alloc::Global;

/// How many doctors apply, per hospital and per prefecture, and in all. A doctor counts once in each.
#[derive(Drop)]
pub struct Applicants {
    pub hospitals: Vec<u32>,
    pub prefectures: Vec<u32>,
    pub country: u32,
}

/// How many doctors are placed at each hospital, how many of them have it first, and how many apply.
#[derive(Drop)]
pub struct Counts {
    pub placed: Vec<u32>,
    pub first: Vec<u32>,
    pub applicants: Applicants,
}

// Counts of doctors by key, where each doctor counts once: beside a count the doctor counted last, by his number from 1, or 0.
#[derive(Drop)]
struct Marks {
    counts: Vec<u32>,
    last: Vec<u32>,
}

impl Marks {
    // Nobody is counted, at any of so many keys.
    fn none(alloc: Global, keys: u32) -> Result<Marks, NoMemory>
        ensures counts { IfOk result (λ marks. marks.counts.items ≡ replicate keys 0) }
        ensures last { IfOk result (λ marks. marks.last.items ≡ replicate keys 0) }
    {
        let counts = vec![in alloc; 0; keys as usize]?;
        let last = vec![in alloc; 0; keys as usize]?;
        Ok(Marks { counts, last })
    }

    // Counts doctor d at a key, unless he was counted there last.
    fn mark(&mut self, key: u32, d: u32)
        requires counts { key < length self.old.counts.items }
        requires last { key < length self.old.last.items }
        requires few { get_or self.old.counts.items key 0 < 4_000_000_000 }
        requires doctor { d < 4_000_000_000 }
        ensures counts { self.new.counts.items ≡ (if get_or self.old.last.items key 0 == d + 1 then self.old.counts.items
            else set self.old.counts.items key (get_or self.old.counts.items key 0 + 1)) }
        ensures last { self.new.last.items ≡ set self.old.last.items key (d + 1) }
    {
        let k = key as usize;
        if self.last[k] != d + 1 {
            self.counts[k] += 1;
        }
        self.last[k] = d + 1;
    }
}

// Counts doctor d at the hospitals and prefectures of these contracts of his.
fn mark_all(case: &Case, d: u32, contracts: &[u32], hospitals: &mut Marks, prefectures: &mut Marks)
    requires doctor { d < length case.now.roster.doctors }
    requires contracts { contracts.now ≡ listed_by case.now d }
    requires hospitals { AreMarked case.now (hospital_key case.now) (length case.now.roster.hospitals) d [] hospitals.old }
    requires prefectures { AreMarked case.now (prefecture_key case.now) (length case.now.roster.prefectures) d [] prefectures.old }
    ensures hospitals { AreMarked case.now (hospital_key case.now) (length case.now.roster.hospitals) d contracts.now hospitals.new }
    ensures prefectures { AreMarked case.now (prefecture_key case.now) (length case.now.roster.prefectures) d contracts.now prefectures.new }
{
    let board = case.board();
    let roster = case.roster();
    for i in 0..contracts.len() {
        let h = board.hospital(contracts[i]);
        hospitals.mark(h, d);
        prefectures.mark(roster.prefecture_of(h), d);
    }
}

// How many doctors apply.
fn count_applicants(alloc: Global, case: &Case) -> Result<Applicants, NoMemory>
    ensures { IfOk result (AreApplicants case.now) }
{
    let listed = case.listed();
    let mut hospitals = Marks::none(alloc, case.roster().hospitals().len())?;
    let mut prefectures = Marks::none(alloc, case.roster().prefectures().len())?;
    let mut country = 0;
    for d in 0..listed.len() {
        let contracts = listed.list(d);
        mark_all(case, d, contracts, &mut hospitals, &mut prefectures);
        if contracts.len() > 0 {
            country += 1;
        }
    }
    Ok(Applicants {
        hospitals: hospitals.counts,
        prefectures: prefectures.counts,
        country,
    })
}

// The hospital of doctor d where it is that of the first of his listed contracts, else none.
fn first_place(case: &Case, places: &Places, d: u32) -> Option<u32>
    requires doctor { d < length places.now }
    requires doctors { length places.now ≡ length case.now.roster.doctors }
    requires hospitals { AreHospitals (length case.now.roster.hospitals) places.now }
    ensures first { (h : ℕ) → (has_place places.now h d && has_first case.now h d) ≡ option_map_or (λ g. g == h) result false }
    ensures below { IfSome result (λ h. h < length case.now.roster.hospitals) }
{
    let Some(h) = places.get(d) else {
        return None;
    };
    let contracts = case.listed().list(d);
    if contracts.len() == 0 {
        return None;
    }
    if case.board().hospital(contracts[0]) != h {
        return None;
    }
    Some(h)
}

// Counts one more at a number, if there is one.
fn count_at(counts: &mut Vec<u32>, at: Option<u32>)
    requires within { IfSome at (λ k. k < length counts.old.items) }
    requires few { IfSome at (λ k. get_or counts.old.items k 0 < 4_294_967_295) }
    ensures { counts.new.items ≡ one_more counts.old.items at }
{
    let Some(k) = at else {
        return;
    };
    counts[k as usize] += 1;
}

// How many doctors are placed at each hospital.
fn placed(alloc: Global, case: &Case, places: &Places) -> Result<Vec<u32>, NoMemory>
    requires doctors { length places.now ≡ length case.now.roster.doctors }
    requires hospitals { AreHospitals (length case.now.roster.hospitals) places.now }
    ensures { IfOk result (λ counts. AreEach (length case.now.roster.hospitals) (placed_at case.now places.now) counts.items) }
{
    let mut counts = vec![in alloc; 0; case.roster().hospitals().len() as usize]?;
    for d in 0..places.len() {
        count_at(&mut counts, places.get(d));
    }
    Ok(counts)
}

// How many doctors are placed at each hospital that is the first of their listed ones.
fn placed_first(alloc: Global, case: &Case, places: &Places) -> Result<Vec<u32>, NoMemory>
    requires doctors { length places.now ≡ length case.now.roster.doctors }
    requires hospitals { AreHospitals (length case.now.roster.hospitals) places.now }
    ensures { IfOk result (λ counts. AreEach (length case.now.roster.hospitals) (first_at case.now places.now) counts.items) }
{
    let mut counts = vec![in alloc; 0; case.roster().hospitals().len() as usize]?;
    for d in 0..places.len() {
        count_at(&mut counts, first_place(case, places, d));
    }
    Ok(counts)
}

impl Counts {
    /// What is counted of a case and of places, one for each of its doctors, each the number of a hospital of the case.
    pub fn of(alloc: Global, case: &Case, places: &Places) -> Result<Counts, NoMemory>
        requires doctors { length places.now ≡ length case.now.roster.doctors }
        requires hospitals { AreHospitals (length case.now.roster.hospitals) places.now }
        ensures { IfOk result (AreCounts case.now places.now) }
    {
        let placed = placed(alloc, case, places)?;
        let first = placed_first(alloc, case, places)?;
        let applicants = count_applicants(alloc, case)?;
        Ok(Counts {
            placed,
            first,
            applicants,
        })
    }
}

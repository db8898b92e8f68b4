// The check of a journal, one exchange for each of its entries.

ghost use Rattle.std.specs.Prelude.{◌≡◌, ◌↔◌, ◌==◌, ℕ, ◌<◌, List, [], All, IfOk, false, length, get_or};
ghost use Rattle.std.specs.Option.{option_map_or};
ghost use Rattle.rm_market.specs.Best.{best_of, values_of};
ghost use Rattle.rm_market.specs.Board.{contract_count};
ghost use Rattle.rm_market.specs.Laws.{AreWishes};
ghost use Rattle.rm_market.specs.Market.{IsPlacementOf, wishes_of};
ghost use Rattle.rm_market.specs.declared.Outcome.TheVariants as out;
ghost use Rattle.rm_rounds.specs.Desk.{places_after, wishes};
ghost use Rattle.rm_case.specs.Case.{IsCase, market};
ghost use Rattle.rm_journal_laws.specs.Journal.{IsAccepted, Says, left_by, same_outcome};
ghost use Rattle.rm_journal_laws.specs.declared.Check.TheVariants as checks;
ghost use Rattle.rm_journal.specs.Doctors.{IsFirst, next_told};

use rm_base::NoMemory;
use rm_case::Case;
use rm_choice::{Holder, Outcome};
use rm_exchange::FastHolder;
use rm_journal_laws::{Check, Entry};
use rm_ranks::Lists;
use std::alloc::Global;

/// What is to be said of a journal of the case's offers, whoever wrote it and in whatever order: the first entry that isn't next
/// or isn't true decides, and without one whether somebody can still offer. `Accepted` comes exactly where each entry in turn is
/// next and true and nobody can offer after the last, and then what its offers leave held is the placement of the case. An entry's
/// contract is its number on the board, counted from 0, and must be one of the board's; `Check` counts entries from 1, and tells a
/// doctor by his row of `doctors.csv`, counted from 0. `NoMemory` is want of memory.
///
/// Each entry costs one offer to a `FastHolder`, and the end one look at each doctor.
pub fn verify(alloc: Global, case: &Case, entries: &[Entry]) -> Result<Check, NoMemory>
    requires { All (λ e. e.x < contract_count (market case.now).board) entries.now }
    ensures says { IfOk result (Says (best_of (values_of (market case.now).board)) (wishes_of (market case.now)) entries.now) }
    ensures accepted { IfOk result (λ check.
        (check ≡ checks.Accepted) ↔ IsAccepted (best_of (values_of (market case.now).board)) (wishes_of (market case.now)) entries.now) }
    ensures placement { IfOk result (λ check. check ≡ checks.Accepted
        → IsPlacementOf (market case.now) (left_by (best_of (values_of (market case.now).board)) (wishes_of (market case.now)) entries.now).held) }
    ensures case { IsCase case.now }
{
    let board = case.board();
    let holder = FastHolder::open(alloc, board)?;
    verify_with(alloc, case.listed(), board.owners(), holder, entries)
}

// What is to be said of a journal of offers to a holder that holds nothing yet.
fn verify_with<H: Holder + Drop>(
    alloc: Global,
    listed: &Lists,
    owners: &[u32],
    mut holder: H,
    entries: &[Entry],
) -> Result<Check, NoMemory>
    requires wishes { AreWishes (H.count holder) (wishes owners.now listed.now) }
    requires empty { H.held holder ≡ [] }
    requires contracts { All (λ e. e.x < length owners.now) entries.now }
    ensures { IfOk result (Says (H.chosen holder) (wishes owners.now listed.now) entries.now) }
{
    // Called for its bound alone: no list is longer than the number of contracts, which fits a u32.
    let _ = holder.contracts();
    let mut spent = vec![in alloc; 0; listed.len() as usize]?;
    let mut places = vec![in alloc; None; listed.len() as usize]?;
    for i in 0..entries.len() {
        let entry = entries[i];
        let d = owners[entry.x as usize];
        if !is_next(listed, &spent, &places, d, entry.x) {
            return Ok(Check::NotNext(i as u64 + 1));
        }
        let outcome = holder.offer(entry.x);
        if !is_same(entry.outcome, outcome) {
            return Ok(Check::WrongAnswer(i as u64 + 1));
        }
        spent[d as usize] += 1;
        note_places(owners, &mut places, d, entry.x, outcome);
    }
    match first_to_offer(listed, &spent, &places) {
        None => Ok(Check::Accepted),
        Some(d) => Ok(Check::Unclosed(d)),
    }
}

// The contract that doctor d offers next: none where he is held or has offered all.
fn next_contract(listed: &Lists, spent: &[u32], places: &[Option<u32>], d: u32) -> Option<u32>
    requires listed { d < length listed.now }
    requires spent { d < length spent.now }
    requires places { d < length places.now }
    ensures { result ≡ next_told listed.now spent.now places.now d }
{
    if places[d as usize].is_some() {
        return None;
    }
    let list = listed.list(d);
    let k = spent[d as usize] as usize;
    if k >= list.len() {
        return None;
    }
    Some(list[k])
}

// Whether doctor d offers the contract x next.
fn is_next(listed: &Lists, spent: &[u32], places: &[Option<u32>], d: u32, x: u32) -> bool
    requires listed { d < length listed.now }
    requires spent { d < length spent.now }
    requires places { d < length places.now }
    ensures { result ≡ option_map_or (λ y. y == x) (next_told listed.now spent.now places.now d) false }
{
    match next_contract(listed, spent, places, d) {
        None => false,
        Some(y) => y == x,
    }
}

// Whether two outcomes are the same.
fn is_same(a: Outcome, b: Outcome) -> bool
    ensures { result ≡ same_outcome a b }
{
    match a {
        Outcome::Kept => match b {
            Outcome::Kept => true,
            Outcome::Refused | Outcome::Swapped(_) => false,
        },
        Outcome::Refused => match b {
            Outcome::Refused => true,
            Outcome::Kept | Outcome::Swapped(_) => false,
        },
        Outcome::Swapped(z) => match b {
            Outcome::Swapped(y) => z == y,
            Outcome::Kept | Outcome::Refused => false,
        },
    }
}

// Notes who is held after doctor d offered x.
fn note_places(owners: &[u32], places: &mut [Option<u32>], d: u32, x: u32, outcome: Outcome)
    requires doctor { d < length places.old }
    requires swapped { (z : ℕ) → outcome ≡ out.Swapped z → z < length owners.now }
    requires owner { (z : ℕ) → outcome ≡ out.Swapped z → get_or owners.now z 0 < length places.old }
    ensures { places.new ≡ places_after owners.now places.old d x outcome }
{
    match outcome {
        Outcome::Kept => {
            places[d as usize] = Some(x);
        }
        Outcome::Refused => {}
        Outcome::Swapped(z) => {
            places[owners[z as usize] as usize] = None;
            places[d as usize] = Some(x);
        }
    }
}

// The least doctor who can offer, or none.
fn first_to_offer(listed: &Lists, spent: &[u32], places: &[Option<u32>]) -> Option<u32>
    requires spent { length spent.now ≡ length listed.now }
    requires places { length places.now ≡ length listed.now }
    ensures { IsFirst (next_told listed.now spent.now places.now) (length listed.now) result }
{
    for d in 0..listed.len() {
        if next_contract(listed, spent, places, d).is_some() {
            return Some(d);
        }
    }
    None
}

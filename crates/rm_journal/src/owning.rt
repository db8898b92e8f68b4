// The journal of the placement's own run.

ghost use Rattle.std.specs.Prelude.{◌≡◌, ◌<◌, ◌≤◌, ◌+◌, ℕ, [], All, IfOk, IfSome, length};
ghost use Rattle.rm_market.specs.Best.{best_of, values_of};
ghost use Rattle.rm_market.specs.Board.{contract_count};
ghost use Rattle.rm_market.specs.Laws.{AreWishes};
ghost use Rattle.rm_market.specs.Market.{IsPlacementOf, wishes_of};
ghost use Rattle.rm_market.specs.declared.Outcome.TheVariants as out;
ghost use Rattle.rm_market.specs.declared.Turn.TheVariants as turns;
ghost use Rattle.rm_rounds.specs.Desk.{desk_state, going_on, left, one_if_some, wishes};
ghost use Rattle.rm_case.specs.Case.{market};
ghost use Rattle.rm_journal_laws.specs.Journal.{IsOwnJournal, NamesBelow, left_by};
ghost use Rattle.rm_journal.specs.Owned.{IsOwnSoFar, NobodyElse, up_to};

use rm_base::NoMemory;
use rm_case::Case;
use rm_choice::{Holder, Outcome};
use rm_exchange::FastHolder;
use rm_journal_laws::Entry;
use rm_ranks::Lists;
use rm_rounds::{Desk, Turn};
use std::alloc::Global;

/// The journal of the case's own run: each entry is the offer of the least doctor who can offer then, by the order of
/// `doctors.csv`, and what it did; and after the last nobody can offer. It is the only journal of this kind, and `verify` says of
/// it that it is accepted. What its offers leave held is the placement of the case. A contract is its number on the board, counted
/// from 0, and by `contracts` each is one of the board's. `NoMemory` is want of memory.
///
/// Each entry costs one offer to a `FastHolder`.
pub fn own_journal(alloc: Global, case: &Case) -> Result<Vec<Entry>, NoMemory>
    ensures own { IfOk result (λ v. IsOwnJournal (best_of (values_of (market case.now).board)) (wishes_of (market case.now)) v.items) }
    ensures placement { IfOk result (λ v.
        IsPlacementOf (market case.now) (left_by (best_of (values_of (market case.now).board)) (wishes_of (market case.now)) v.items).held) }
    ensures contracts { IfOk result (λ v. All (NamesBelow (contract_count (market case.now).board)) v.items) }
{
    let board = case.board();
    let holder = FastHolder::open(alloc, board)?;
    record(alloc, case.listed(), board.owners(), holder)
}

// The own journal of offers to a holder that holds nothing yet.
fn record<H: Holder + Drop>(
    alloc: Global,
    listed: &Lists,
    owners: &[u32],
    holder: H,
) -> Result<Vec<Entry>, NoMemory>
    requires wishes { AreWishes (H.count holder) (wishes owners.now listed.now) }
    requires empty { H.held holder ≡ [] }
    ensures own { IfOk result (λ v. IsOwnJournal (H.chosen holder) (wishes owners.now listed.now) v.items) }
    ensures contracts { IfOk result (λ v. All (NamesBelow (H.count holder)) v.items) }
{
    // Called for its bound alone: the number of contracts fits a u32.
    let _ = holder.contracts();
    let mut desk = Desk::open(alloc, listed, owners, holder)?;
    let mut entries = Vec::new(alloc);
    for d in 0..listed.len() {
        follow(owners, &mut desk, &mut entries, d)?;
    }
    Ok(entries)
}

// The offers of doctor d, and of those before him who can offer again for them, each of the least doctor who can.
fn follow<H: Holder>(
    owners: &[u32],
    desk: &mut Desk<'_, H>,
    entries: &mut Vec<Entry>,
    d: u32,
) -> Result<(), NoMemory>
    requires doctor { d < length desk.old.wishes.listed }
    requires owners { owners.now ≡ desk.old.wishes.owners }
    requires so_far { IsOwnSoFar (H.chosen desk.old.holder) desk.old.wishes (desk_state H.held desk.old) entries.old.items }
    requires before { NobodyElse desk.old.wishes (desk_state H.held desk.old) d None }
    ensures so_far { IfOk result (λ _. IsOwnSoFar (H.chosen desk.old.holder) desk.old.wishes (desk_state H.held desk.new) entries.new.items) }
    ensures before { IfOk result (λ _. NobodyElse desk.old.wishes (desk_state H.held desk.new) (d + 1) None) }
    ensures wishes { IfOk result (λ _. desk.new.wishes ≡ desk.old.wishes) }
    ensures chosen { IfOk result (λ _. H.chosen desk.new.holder ≡ H.chosen desk.old.holder) }
{
    let mut next = Some(d);
    while let Some(e) = next {
        next = advance(owners, desk, entries, e, d)?;
    }
    Ok(())
}

// The turn of doctor e, who alone of the doctors up to d may offer, and who of them may offer next.
fn advance<H: Holder>(
    owners: &[u32],
    desk: &mut Desk<'_, H>,
    entries: &mut Vec<Entry>,
    e: u32,
    d: u32,
) -> Result<Option<u32>, NoMemory>
    requires doctor { e < length desk.old.wishes.listed }
    requires last { e ≤ d }
    requires owners { owners.now ≡ desk.old.wishes.owners }
    requires so_far { IsOwnSoFar (H.chosen desk.old.holder) desk.old.wishes (desk_state H.held desk.old) entries.old.items }
    requires before { NobodyElse desk.old.wishes (desk_state H.held desk.old) (d + 1) (Some e) }
    ensures so_far { IfOk result (λ _. IsOwnSoFar (H.chosen desk.old.holder) desk.old.wishes (desk_state H.held desk.new) entries.new.items) }
    ensures before { IfOk result (λ next. NobodyElse desk.old.wishes (desk_state H.held desk.new) (d + 1) next) }
    ensures doctor { IfOk result (λ next. IfSome next (λ f. f ≤ d)) }
    ensures fewer { IfOk result (λ next. left desk.old.wishes (desk_state H.held desk.new) + one_if_some next
        ≤ left desk.old.wishes (desk_state H.held desk.old)) }
    ensures wishes { IfOk result (λ _. desk.new.wishes ≡ desk.old.wishes) }
    ensures chosen { IfOk result (λ _. H.chosen desk.new.holder ≡ H.chosen desk.old.holder) }
{
    match desk.offer(e) {
        Turn::Idle | Turn::Done => Ok(None),
        Turn::Moved { x, outcome } => {
            entries.push(Entry { x, outcome })?;
            Ok(next_up_to(owners, e, outcome, d))
        }
    }
}

// Who of the doctors up to d is to go on after doctor e's offer: he, where it was refused, or whoever was put out.
fn next_up_to(owners: &[u32], e: u32, outcome: Outcome, d: u32) -> Option<u32>
    requires last { e ≤ d }
    requires swapped { (z : ℕ) → outcome ≡ out.Swapped z → z < length owners.now }
    ensures { (x : ℕ) → result ≡ up_to d (going_on owners.now e (turns.Moved x outcome)) }
{
    let next = match outcome {
        Outcome::Kept => return None,
        Outcome::Refused => e,
        Outcome::Swapped(z) => owners[z as usize],
    };
    if next <= d { Some(next) } else { None }
}

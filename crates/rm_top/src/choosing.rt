// The text of `choose`: of a file of offers, the best subset, with a row for each offer.

ghost use Rattle.std.specs.Prelude.{◌≡◌, ◌<◌, [], filter, None, All, IfErr, IfOk};
ghost use Rattle.rm_base.specs.Checks.{first_of};
ghost use Rattle.rm_sets.specs.Sets.{has, IsSetBelow};
ghost use Rattle.rm_market.specs.Best.{IsBest, values_of};
ghost use Rattle.rm_market.specs.Board.{contract_count};
ghost use Rattle.rm_valuation.specs.Counts.{IsMarketBoard};
ghost use Rattle.rm_case.specs.Case.{market};
ghost use Rattle.rm_case.specs.Own.{offer_table_checks, offers_of};
ghost use Rattle.rm_top.specs.Answers.{IsChoiceText};
ghost use Rattle.rm_base.specs.Reading.{Stops};

use crate::NoMemory;
use rm_board::Board;
use rm_case::{Case, Offers, OwnFault};
use rm_choice::Holder;
use rm_exchange::{FastHolder, certificate};
use rm_report::certificate_text;
use rm_table::Table;
use std::alloc::Global;

// Offers these contracts, which ascend, one after the other to a holder that holds nothing yet.
fn offer_all<H: Holder>(holder: &mut H, offered: &[u32])
    requires nothing { H.held holder.old ≡ [] }
    requires offered { IsSetBelow (H.count holder.old) offered.now }
    ensures held { H.held holder.new ≡ H.chosen holder.old offered.now }
    ensures count { H.count holder.new ≡ H.count holder.old }
{
    for i in 0..offered.len() {
        holder.offer(offered[i]);
    }
}

// Those of the offered contracts, which ascend, that are held.
fn held_among<H: Holder>(alloc: Global, holder: &H, offered: &[u32]) -> Result<Vec<u32>, NoMemory>
    requires { IsSetBelow (H.count holder.now) offered.now }
    ensures { IfOk result (λ held. held.items ≡ filter (λ x. has x (H.held holder.now)) offered.now) }
{
    let mut held = Vec::with_capacity(alloc, offered.len())?;
    for i in 0..offered.len() {
        if holder.holds(offered[i]) {
            held.push(offered[i])?;
        }
    }
    Ok(held)
}

// The best subset of the offered contracts, which ascend.
fn best_subset(alloc: Global, board: &Board, offered: &[u32]) -> Result<Vec<u32>, NoMemory>
    requires board { IsMarketBoard board.now }
    requires offered { IsSetBelow (contract_count board.now) offered.now }
    ensures { IfOk result (λ chosen. IsBest (values_of board.now) offered.now chosen.items) }
{
    let mut holder = FastHolder::open(alloc, board)?;
    offer_all(&mut holder, offered);
    held_among(alloc, &holder, offered)
}

// The text of the best subset of these offers.
fn offers_text(alloc: Global, case: &Case, offers: &Offers) -> Result<Vec<u8>, NoMemory>
    requires { All (λ x. x < contract_count (market case.now).board) offers.now }
    ensures { IfOk result (λ text. IsChoiceText case.now offers.now text.items) }
{
    let offered = offers.ascending(alloc)?;
    let chosen = best_subset(alloc, case.board(), &offered)?;
    let rows = certificate(alloc, case.board(), offers.contracts(), &chosen)?;
    certificate_text(alloc, case, &rows)
}

/// The text of the best subset of the offers that a table tells.
pub fn choose_text(alloc: Global, case: &Case, table: &Table) -> Result<Vec<u8>, OwnFault>
    ensures text { IfOk result (λ text. (first_of (offer_table_checks case.now table.now) ≡ None)
        × IsChoiceText case.now (offers_of case.now table.now) text.items) }
    ensures stops { IfErr result (Stops (first_of (offer_table_checks case.now table.now))) }
{
    let offers = match Offers::read(alloc, case, table) {
        Ok(offers) => offers,
        Err(fault) => return Err(fault),
    };
    match offers_text(alloc, case, &offers) {
        Ok(text) => Ok(text),
        Err(_) => Err(OwnFault::NoMemory),
    }
}

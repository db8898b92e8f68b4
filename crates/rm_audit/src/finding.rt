// The finding on a placement.

ghost use Rattle.std.specs.Prelude.{◌≡◌, ◌↔◌, ℕ, All, length, get_or, false, IfOk, ◌<◌};
ghost use Rattle.rm_sets.specs.Sets.{all_below, has};
ghost use Rattle.rm_market.specs.Board.{contract_count};
ghost use Rattle.rm_market.specs.Market.{IsStableIn, set_of_places, wishes_of};
ghost use Rattle.rm_market.specs.Stable.{IsPlacement};
ghost use Rattle.rm_market.specs.declared.Finding.TheVariants.{Stable};
ghost use Rattle.rm_verdict_laws.specs.Findings.{IsFinding};
ghost use Rattle.rm_case.specs.Case.{IsCase, market};
ghost use Rattle.rm_audit.specs.Blocking.{AreMarks, blocking_finding};
ghost use Rattle.rm_audit.specs.CountForm.{IsStableByCounts};
ghost use Rattle.rm_audit.specs.Placement.{AreListedPlaces};

use crate::blocking::first_blocking;
use crate::placed::{cheapest_of, counts_of, first_unwanted};
use rm_base::NoMemory;
use rm_board::Board;
use rm_case::{Case, Places};
use rm_market::Finding;
use rm_valuation::first_over;
use std::alloc::Global;

/// The finding on the placement that these places make: there is one for each doctor, and each is the hospital of a contract that
/// he lists, as in what `read_placement` reads.
///
/// `OverCap(k)` comes exactly where some node has more placed contracts than its cap, with the least such node. Else
/// `Unwanted(z)` comes exactly where the placed contracts aren't the best subset of themselves, with the least z without which
/// they are better. Else `Blocks(x)` comes exactly where some contract blocks, with the least such x: its doctor prefers it to
/// his place, and with x the placed contracts aren't the best subset. Else `Stable`, which comes exactly where the set of the
/// places is stable in the case's market. Nodes and contracts are told by number, from 0.
///
/// With a flexible policy `Stable` comes of places that keep every cap exactly where they have the count form, which looks at no
/// worths: each contract that a doctor prefers to his place is passed over, at a hospital that ranks all whom it holds above him,
/// and that has no seat left, or whose region is full and has its next turn later than those of all seats that it holds.
///
/// `NoMemory` comes only where memory for a mark of each contract, for the placed contracts, or for two entries of each node is
/// wanting.
///
/// Each placed contract and each contract that a doctor prefers to his place is looked at once, at the cost of the length of its
/// chain of nodes.
pub fn audit(alloc: Global, case: &Case, places: &Places) -> Result<Finding, NoMemory>
    requires { AreListedPlaces case.now places.now }
    ensures finding { IfOk result (IsFinding (market case.now) (set_of_places (market case.now) places.now)) }
    ensures stable { IfOk result (λ finding. (finding ≡ Stable) ↔ IsStableIn (market case.now) (set_of_places (market case.now) places.now)) }
    ensures counts { IfOk result (IsStableByCounts case.now (set_of_places (market case.now) places.now)) }
{
    let marks = marks_of(alloc, case, places)?;
    let contracts = contracts_of(alloc, case.board(), &marks)?;
    finding_on(alloc, case, &marks, &contracts)
}

// For each contract whether it is that of its doctor at his place.
fn marks_of(alloc: Global, case: &Case, places: &Places) -> Result<Vec<bool>, NoMemory>
    requires { AreListedPlaces case.now places.now }
    ensures case { IsCase case.now }
    ensures marks { IfOk result (λ marks. AreMarks (contract_count (market case.now).board) (set_of_places (market case.now) places.now) marks.items) }
{
    let board = case.board();
    let mut marks = vec![in alloc; false; board.contracts() as usize]?;
    for d in 0..places.len() {
        let Some(h) = places.get(d) else {
            continue;
        };
        let Some(x) = board.find(d, h) else {
            continue;
        };
        marks[x as usize] = true;
    }
    Ok(marks)
}

// The marked contracts, ascending.
fn contracts_of(alloc: Global, board: &Board, marks: &[bool]) -> Result<Vec<u32>, NoMemory>
    requires { length marks.now ≡ contract_count board.now }
    ensures { IfOk result (λ contracts. contracts.items ≡ all_below (contract_count board.now) (λ x. get_or marks.now x false)) }
{
    let mut contracts = Vec::new(alloc);
    for x in 0..board.contracts() {
        if marks[x as usize] {
            contracts.push(x)?;
        }
    }
    Ok(contracts)
}

// The finding on a set that is the best subset of itself, from the least contract that blocks it.
fn blocking_finding(blocking: Option<u32>) -> Finding
    ensures { result ≡ blocking_finding blocking }
{
    match blocking {
        Some(x) => Finding::Blocks(x),
        None => Finding::Stable,
    }
}

// The finding on a set of placed contracts, which are also marked.
fn finding_on(
    alloc: Global,
    case: &Case,
    marks: &[bool],
    contracts: &[u32],
) -> Result<Finding, NoMemory>
    requires placement { IsPlacement (wishes_of (market case.now)) contracts.now }
    requires marks { AreMarks (contract_count (market case.now).board) contracts.now marks.now }
    ensures case { IsCase case.now }
    ensures finding { IfOk result (IsFinding (market case.now) contracts.now) }
{
    let board = case.board();
    let counts = counts_of(alloc, board, contracts)?;
    if let Some(node) = first_over(board, &counts) {
        return Ok(Finding::OverCap(node));
    }
    if let Some(z) = first_unwanted(board, &counts, contracts) {
        return Ok(Finding::Unwanted(z));
    }
    let cheapest = cheapest_of(alloc, board, &counts, contracts)?;
    let blocking = first_blocking(board, case.listed(), &counts, &cheapest, marks);
    Ok(blocking_finding(blocking))
}

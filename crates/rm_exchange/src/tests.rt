// The verdicts and the certificate at one hospital whose second place lowers the worth.

ghost use Rattle.std.specs.Prelude.{IsTrue, length};
ghost use Rattle.rm_sets.specs.Sets.{IsSetBelow};
ghost use Rattle.rm_market.specs.Board.{contract_count};
ghost use Rattle.rm_market.specs.Best.{IsBest, values_of};
ghost use Rattle.rm_choice.specs.Size.{Fits};
ghost use Rattle.rm_valuation.specs.Counts.{IsMarketBoard};

use super::*;
use rm_board::Board;
use rm_choice::Room;
use rm_samples::{is_set, is_within, one_hospital};
use std::alloc::Global;
use std::test::Fail;

// The verdict on a choice. None where the contracts are no sets of the board's, one within the other.
fn verdict_on(
    alloc: Global,
    board: &Board,
    offered: &[u32],
    chosen: &[u32],
) -> Result<Option<Verdict>, NoMemory>
    requires { IsMarketBoard board.now }
{
    let contracts = board.contracts();
    if !is_set(contracts, offered) {
        return Ok(None);
    }
    if !is_set(contracts, chosen) {
        return Ok(None);
    }
    if !is_within(chosen, offered) {
        return Ok(None);
    }
    let mut room = Room::new(alloc, contracts, board.tree().nodes())?;
    let verdict = certify(board, offered, chosen, &mut room);
    Ok(Some(verdict))
}

// A choice at the hospital, and the verdict on it.
#[derive(Clone, Copy)]
struct Choice {
    chosen: &'static [u32],
    verdict: Verdict,
}

const CHOICES: [Choice; 4] = [
    Choice {
        chosen: &[0],
        verdict: Verdict::Best,
    },
    Choice {
        chosen: &[1],
        verdict: Verdict::Swap(0, 1),
    },
    Choice {
        chosen: &[],
        verdict: Verdict::Add(0),
    },
    Choice {
        chosen: &[0, 1],
        verdict: Verdict::Remove(0),
    },
];

#[test]
fn finds_the_first_change(rt: HostRuntime) -> Result<(), Fail> {
    let board = one_hospital(rt.alloc())?;
    for choice in &CHOICES {
        let found = verdict_on(rt.alloc(), &board, &[0, 1], choice.chosen)?;
        assert!(rt; found == Some(choice.verdict));
    }
    Ok(())
}

// Whether a choice of offers, which are a set, is the best one.
fn is_best(board: &Board, offered: &[u32], chosen: &[u32], room: &mut Room) -> bool
    requires board { IsMarketBoard board.now }
    requires fits { Fits (contract_count board.now) (length board.now.nodes) room.old }
    ensures below { IsTrue result → IsSetBelow (contract_count board.now) offered.now }
    ensures best { IsTrue result → IsBest (values_of board.now) offered.now chosen.now }
{
    let contracts = board.contracts();
    if !is_set(contracts, offered) {
        return false;
    }
    if !is_set(contracts, chosen) {
        return false;
    }
    if !is_within(chosen, offered) {
        return false;
    }
    match certify(board, offered, chosen, room) {
        Verdict::Best => true,
        _ => false,
    }
}

const ROWS: [CertRow; 2] = [
    CertRow {
        contract: 1,
        kept: false,
        change: Some(-1),
        full: None,
        swap: Some(SwapRow { out: 0, change: 0 }),
    },
    CertRow {
        contract: 0,
        kept: true,
        change: Some(0),
        full: None,
        swap: None,
    },
];

#[test]
fn tells_what_each_offer_changes(rt: HostRuntime) -> Result<(), Fail> {
    let board = one_hospital(rt.alloc())?;
    let mut room = Room::new(rt.alloc(), board.contracts(), board.tree().nodes())?;
    let chosen = [0];
    let offered = [0, 1];
    let offers = [1, 0];
    let best = is_best(&board, &offered, &chosen, &mut room);
    assert!(rt; best);
    let all = is_within(&offered, &offers);
    assert!(rt; all);
    let only = is_within(&offers, &offered);
    assert!(rt; only);
    let rows = certificate(rt.alloc(), &board, &offers, &chosen)?;
    assert!(rt; rows.len() == 2);
    assert!(rt; rows[0] == ROWS[0]);
    assert!(rt; rows[1] == ROWS[1]);
    Ok(())
}

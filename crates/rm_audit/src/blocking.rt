// The contracts that block a placement which is the best subset of itself.

ghost use Rattle.std.specs.Prelude.{◌≡◌, ◌<◌, ℕ, ℤ, List, All, length, IsFalse, nat_lt};
ghost use Rattle.rm_sets.specs.Sets.{has};
ghost use Rattle.rm_market.specs.Board.{contract_count};
ghost use Rattle.rm_audit.specs.Placed.{IsWalkable};
ghost use Rattle.rm_audit.specs.Blocking.{AreMarks, IsAnswer, IsFirstBlocking, IsLeastOfThem, IsReachedBy, IsWeighed, gains_by};

use crate::placed::{Removal, chain_of};
use rm_board::Board;
use rm_ranks::Lists;
use rm_valuation::next_step;

// Whether an offer that gains so much and has this tie key is better in the place of a removed contract, if there is one.
fn gains(removal: Option<Removal>, gain: i64, tie: u32) -> bool
    ensures { result ≡ gains_by gain tie removal }
{
    let Some(removal) = removal else {
        return false;
    };
    removal.loss < gain || (removal.loss == gain && tie < removal.tie)
}

// Whether a set with these counts and cheapest removals is no longer the best subset where contract x is offered to it: x is
// better in the place of one of its contracts, or added to it.
fn blocks(board: &Board, counts: &[u32], cheapest: &[Option<Removal>], x: u32) -> bool
    requires chains { IsWalkable board.now }
    requires contract { x < contract_count board.now }
    requires nodes { length counts.now ≡ length board.now.nodes }
    requires table { length cheapest.now ≡ length board.now.nodes }
    ensures { (S : List ℕ) → IsWeighed board.now S counts.now cheapest.now → IsFalse (has x S) → IsAnswer board.now S x result }
{
    let chain = chain_of(board, x);
    let tie = board.tie_key(x);
    let mut gain = 0;
    for i in 0..chain.len() {
        let node = chain[i];
        if gains(cheapest[node as usize], gain, tie) {
            return true;
        }
        let Some(step) = next_step(board, counts, node) else {
            return false;
        };
        gain += step;
    }
    gain >= 0
}

// The lesser of `least` and of contract x, if x blocks.
fn lesser(board: &Board, counts: &[u32], cheapest: &[Option<Removal>], x: u32, least: u32) -> u32
    requires chains { IsWalkable board.now }
    requires contract { x < contract_count board.now }
    requires nodes { length counts.now ≡ length board.now.nodes }
    requires table { length cheapest.now ≡ length board.now.nodes }
    ensures { (S : List ℕ) → IsWeighed board.now S counts.now cheapest.now → IsFalse (has x S) → IsLeastOfThem board.now S (λ y. y ≡ x) least result }
{
    if least <= x {
        return least;
    }
    if blocks(board, counts, cheapest, x) {
        return x;
    }
    least
}

// The least of `least` and of the contracts of a doctor's list that stand before his place and block.
fn least_of_list(
    board: &Board,
    counts: &[u32],
    cheapest: &[Option<Removal>],
    marks: &[bool],
    list: &[u32],
    least: u32,
) -> u32
    requires chains { IsWalkable board.now }
    requires contracts { All (λ x. x < contract_count board.now) list.now }
    requires nodes { length counts.now ≡ length board.now.nodes }
    requires table { length cheapest.now ≡ length board.now.nodes }
    requires marks { length marks.now ≡ contract_count board.now }
    ensures { (S : List ℕ) → IsWeighed board.now S counts.now cheapest.now → AreMarks (contract_count board.now) S marks.now
        → IsLeastOfThem board.now S (IsReachedBy S list.now (length list.now)) least result }
{
    let mut least = least;
    for i in 0..list.len() {
        let x = list[i];
        if marks[x as usize] {
            return least;
        }
        least = lesser(board, counts, cheapest, x, least);
    }
    least
}

// The least contract that blocks, of those that stand before a doctor's place in his list.
pub(crate) fn first_blocking(
    board: &Board,
    listed: &Lists,
    counts: &[u32],
    cheapest: &[Option<Removal>],
    marks: &[bool],
) -> Option<u32>
    requires chains { IsWalkable board.now }
    requires contracts { All (All (λ x. x < contract_count board.now)) listed.now }
    requires nodes { length counts.now ≡ length board.now.nodes }
    requires table { length cheapest.now ≡ length board.now.nodes }
    requires marks { length marks.now ≡ contract_count board.now }
    ensures { (S : List ℕ) → IsWeighed board.now S counts.now cheapest.now → AreMarks (contract_count board.now) S marks.now
        → IsFirstBlocking board.now listed.now S result }
{
    let end = board.contracts();
    let mut least = end;
    for d in 0..listed.len() {
        let list = listed.list(d);
        least = least_of_list(board, counts, cheapest, marks, list, least);
    }
    if least == end {
        return None;
    }
    Some(least)
}

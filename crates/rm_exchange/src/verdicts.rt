// The verdict on a choice.

ghost use Rattle.std.specs.Prelude.{◌≡◌, ◌↔◌, ◌≤◌, ◌<◌, ◌+◌, ◌^◌, ◌-ℤ◌, ◌<ℤ◌, pos, ℕ, List, length, take, position, IfSome, IsTrue, false};
ghost use Rattle.rm_sets.specs.Sets.{has, IsIn, IsSet, IsSetBelow, IsWithin, minus, with_one};
ghost use Rattle.rm_market.specs.Board.{contract_count};
ghost use Rattle.rm_market.specs.Best.{IsBest, values_of, is_better, swapped};
ghost use Rattle.rm_market.specs.Certificate.{verdict_of, better_without, better_with, better_swap, swap_verdict};
ghost use Rattle.rm_market.specs.declared.Verdict.TheVariants.{Best};
ghost use Rattle.rm_choice.specs.Size.{Fits, IsAsLarge};
ghost use Rattle.rm_valuation.specs.Counts.{IsMarketBoard, AreCounts};
ghost use Rattle.rm_verdict_laws.specs.Verdicts.{IsVerdict};
ghost use Rattle.rm_exchange.specs.Counted.{IsChosen, IsTakenOut};
ghost use Rattle.rm_exchange.specs.Swaps.{IsFirstSwap};

use crate::refused::write_refused;
use crate::swaps::{swap_change, take_out};
use rm_board::Board;
use rm_choice::Room;
use rm_market::Verdict;
use rm_valuation::{count_all, count_in, first_over, gain, loss};

// The least chosen contract whose removal is better.
fn first_removal(board: &Board, counts: &[u32], chosen: &[u32]) -> Option<u32>
    requires chosen { IsChosen board.now chosen.now }
    requires counts { AreCounts board.now chosen.now counts.now }
    requires nodes { length counts.now ≡ length board.now.nodes }
    ensures { result ≡ better_without (values_of board.now) chosen.now }
{
    for i in 0..chosen.len() {
        let z = chosen[i];
        if loss(board, counts, z) < 0 {
            return Some(z);
        }
    }
    None
}

// Whether the addition of contract x is better.
fn is_better_with(board: &Board, counts: &[u32], x: u32) -> bool
    requires contract { x < contract_count board.now }
    requires nodes { length counts.now ≡ length board.now.nodes }
    ensures { (S : List ℕ) → IsChosen board.now S → has x S ≡ false → AreCounts board.now S counts.now
        → result ≡ is_better (values_of board.now) (with_one S x) S }
{
    let Some(gain) = gain(board, counts, x) else {
        return false;
    };
    gain >= 0
}

// The first of these refused contracts whose addition is better.
fn first_addition(board: &Board, counts: &[u32], refused: &[u32]) -> Option<u32>
    requires refused { IsSetBelow (contract_count board.now) refused.now }
    requires nodes { length counts.now ≡ length board.now.nodes }
    ensures { (X S : List ℕ) → refused.now ≡ minus X S → IsChosen board.now S → AreCounts board.now S counts.now
        → result ≡ better_with (values_of board.now) X S }
{
    for i in 0..refused.len() {
        let x = refused[i];
        if is_better_with(board, counts, x) {
            return Some(x);
        }
    }
    None
}

// Whether contract x is better in the place of z, which was taken out with this loss.
fn is_better_for(board: &Board, counts: &[u32], x: u32, z: u32, loss: i64) -> bool
    requires contract { x < contract_count board.now }
    requires place { z < contract_count board.now }
    requires nodes { length counts.now ≡ length board.now.nodes }
    requires low { (pos 0 -ℤ pos (2 ^ 62)) <ℤ loss }
    requires high { loss <ℤ pos (2 ^ 62) }
    ensures { (S : List ℕ) → IsTakenOut board.now S z counts.now loss → has x S ≡ false → result ≡ is_better (values_of board.now) (swapped S x z) S }
{
    let Some(change) = swap_change(board, counts, x, loss) else {
        return false;
    };
    if change == 0 {
        return board.tie(x) < board.tie(z);
    }
    change > 0
}

// The place of the first of these refused contracts that is better in the place of z, which was taken out with this loss.
fn first_for(board: &Board, counts: &[u32], refused: &[u32], z: u32, loss: i64) -> Option<usize>
    requires refused { IsSetBelow (contract_count board.now) refused.now }
    requires place { z < contract_count board.now }
    requires nodes { length counts.now ≡ length board.now.nodes }
    requires low { (pos 0 -ℤ pos (2 ^ 62)) <ℤ loss }
    requires high { loss <ℤ pos (2 ^ 62) }
    ensures within { IfSome result (λ i. i < length refused.now) }
    ensures first { (S : List ℕ) → IsTakenOut board.now S z counts.now loss → ((x : ℕ) → IsIn x refused.now → has x S ≡ false)
        → result ≡ position (λ x. is_better (values_of board.now) (swapped S x z) S) refused.now }
{
    for i in 0..refused.len() {
        if is_better_for(board, counts, refused[i], z, loss) {
            return Some(i);
        }
    }
    None
}

// The first of the refused contracts that is better in the place of a chosen one, with the least such chosen one.
fn first_swap(
    board: &Board,
    counts: &mut [u32],
    refused: &[u32],
    chosen: &[u32],
) -> Option<(u32, u32)>
    requires chosen { IsChosen board.now chosen.now }
    requires counts { AreCounts board.now chosen.now counts.old }
    requires nodes { length counts.old ≡ length board.now.nodes }
    requires refused { IsSetBelow (contract_count board.now) refused.now }
    requires outside { (x : ℕ) → IsIn x refused.now → has x chosen.now ≡ false }
    ensures nodes { length counts.new ≡ length counts.old }
    ensures swap { (X : List ℕ) → refused.now ≡ minus X chosen.now → result ≡ better_swap (values_of board.now) X chosen.now }
{
    let mut swap = None;
    let mut end = refused.len();
    for i in 0..chosen.len() {
        let z = chosen[i];
        let loss = take_out(board, counts, z);
        let first = first_for(board, counts, &refused[..end], z, loss);
        count_in(board, counts, z);
        let Some(place) = first else {
            continue;
        };
        swap = Some((refused[place], z));
        end = place;
    }
    swap
}

// The first single change that makes a feasible choice better. The refused contracts are those of the offered ones that
// aren't chosen.
fn first_change(board: &Board, counts: &mut [u32], refused: &[u32], chosen: &[u32]) -> Verdict
    requires chosen { IsChosen board.now chosen.now }
    requires counts { AreCounts board.now chosen.now counts.old }
    requires nodes { length counts.old ≡ length board.now.nodes }
    requires refused { IsSetBelow (contract_count board.now) refused.now }
    requires outside { (x : ℕ) → IsIn x refused.now → has x chosen.now ≡ false }
    ensures nodes { length counts.new ≡ length counts.old }
    ensures verdict { (X : List ℕ) → refused.now ≡ minus X chosen.now → result ≡ verdict_of board.now X chosen.now }
{
    if let Some(z) = first_removal(board, counts, chosen) {
        return Verdict::Remove(z);
    }
    if let Some(x) = first_addition(board, counts, refused) {
        return Verdict::Add(x);
    }
    let Some((x, z)) = first_swap(board, counts, refused, chosen) else {
        return Verdict::Best;
    };
    Verdict::Swap(x, z)
}

// The verdict, in a list with room for all that was offered, and counts for all nodes.
fn verdict(
    board: &Board,
    offered: &[u32],
    chosen: &[u32],
    list: &mut [u32],
    counts: &mut [u32],
) -> Verdict
    requires board { IsMarketBoard board.now }
    requires offered { IsSetBelow (contract_count board.now) offered.now }
    requires chosen { IsSet chosen.now }
    requires within { IsWithin chosen.now offered.now }
    requires list { contract_count board.now ≤ length list.old }
    requires nodes { length board.now.nodes ≤ length counts.old }
    ensures list { length list.new ≡ length list.old }
    ensures nodes { length counts.new ≡ length counts.old }
    ensures verdict { result ≡ verdict_of board.now offered.now chosen.now }
{
    let nodes = board.tree().nodes() as usize;
    let counts = &mut counts[..nodes];
    count_all(board, counts, chosen);
    if let Some(node) = first_over(board, counts) {
        return Verdict::OverCap(node);
    }
    let refused = write_refused(list, offered, chosen);
    first_change(board, counts, &list[..refused], chosen)
}

/// The verdict on a choice: whether `chosen` is the best subset of `offered`, and else the first single change that gives a
/// better set. Both are strictly ascending contracts of the board, which count from 0, `chosen` is within `offered`, and the
/// room fits the board: it has an entry for each contract, and one for each node.
///
/// `OverCap(n)` comes exactly where `chosen` isn't feasible, with the least node over its cap. Else `Remove(z)` comes exactly
/// where removing some contract gives a better set, with the least such z. Else `Add(x)`, in the same way. Else `Swap(x, z)`,
/// with x in the place of z, the least x and then the least z. Else `Best`, which comes exactly where `chosen` is the best
/// subset: a set that no single change improves is the best one (Murota; Kojima, Tamura and Yokoo 2018).
///
/// It takes no memory. It looks at most once at each pair of a refused and a chosen contract, and each look costs the
/// length of a contract's chain of nodes.
pub fn certify(board: &Board, offered: &[u32], chosen: &[u32], room: &mut Room) -> Verdict
    requires board { IsMarketBoard board.now }
    requires offered { IsSetBelow (contract_count board.now) offered.now }
    requires chosen { IsSet chosen.now }
    requires within { IsWithin chosen.now offered.now }
    requires fits { Fits (contract_count board.now) (length board.now.nodes) room.old }
    ensures verdict { result ≡ verdict_of board.now offered.now chosen.now }
    ensures says { IsVerdict board.now offered.now chosen.now result }
    ensures best { (result ≡ Best) ↔ IsBest (values_of board.now) offered.now chosen.now }
    ensures room { IsAsLarge room.old room.new }
{
    verdict(board, offered, chosen, &mut room.list, &mut room.counts)
}

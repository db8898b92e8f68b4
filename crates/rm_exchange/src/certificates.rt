// The certificate of the best choice.

ghost use Rattle.std.specs.Prelude.{◌≡◌, ◌<◌, ◌≤◌, ◌+◌, ◌++◌, ◌∷◌, [], ◌^◌, ◌-ℤ◌, ◌<ℤ◌, pos, ℕ, List, Some, None, length, All, IfOk, IfSome, IsTrue, ◌↔◌, false};
ghost use Rattle.rm_sets.specs.Sets.{has, IsIn, IsSetBelow};
ghost use Rattle.rm_market.specs.Board.{contract_count, leaf_of};
ghost use Rattle.rm_market.specs.Best.{IsBest, values_of};
ghost use Rattle.rm_market.specs.Certificate.{innermost_full as innermost_full_of, certificate as certificate_of};
ghost use Rattle.rm_valuation.specs.Counts.{IsMarketBoard, AreCounts};
ghost use Rattle.rm_verdict_laws.specs.Rows.{AreRowsOf};
ghost use Rattle.rm_exchange.specs.Counted.{IsChosen, IsTakenOut};
ghost use Rattle.rm_exchange.specs.RowsBelow.{IsLastAt, AreLasts, IsAhead, IsSwapBelow, IsRowBelow, AreRowsBelow, HasOutsBelow};

use crate::refused::holds;
use crate::swaps::{swap_change, take_out};
use rm_board::Board;
use rm_choice::NoMemory;
use rm_market::{CertRow, SwapRow};
use rm_valuation::{count_all, count_in, gain, loss};
use std::alloc::Global;

// The innermost node of contract x that is at its cap.
fn innermost_full(board: &Board, counts: &[u32], x: u32) -> Option<u32>
    requires contract { x < contract_count board.now }
    requires nodes { length counts.now ≡ length board.now.nodes }
    ensures { (S : List ℕ) → AreCounts board.now S counts.now → result ≡ innermost_full_of board.now S x }
{
    let chain = board.tree().chain(board.leaf(x));
    for i in 0..chain.len() {
        let node = chain[i];
        if counts[node as usize] == board.steps(node).cap() {
            return Some(node);
        }
    }
    None
}

// The row of contract x, before any swap for it was looked at.
fn first_row(board: &Board, counts: &[u32], chosen: &[u32], x: u32) -> CertRow
    requires chosen { IsChosen board.now chosen.now }
    requires counts { AreCounts board.now chosen.now counts.now }
    requires nodes { length counts.now ≡ length board.now.nodes }
    requires contract { x < contract_count board.now }
    ensures row { IsRowBelow board.now chosen.now 0 x result }
    ensures swap { result.swap ≡ None }
{
    if holds(chosen, x) {
        return CertRow {
            contract: x,
            kept: true,
            change: Some(loss(board, counts, x)),
            full: None,
            swap: None,
        };
    }
    let Some(change) = gain(board, counts, x) else {
        return CertRow {
            contract: x,
            kept: false,
            change: None,
            full: innermost_full(board, counts, x),
            swap: None,
        };
    };
    CertRow {
        contract: x,
        kept: false,
        change: Some(change),
        full: None,
        swap: None,
    }
}

// The rows of the offered contracts, before any swap was looked at.
fn first_rows(
    alloc: Global,
    board: &Board,
    counts: &[u32],
    offered: &[u32],
    chosen: &[u32],
) -> Result<Vec<CertRow>, NoMemory>
    requires chosen { IsChosen board.now chosen.now }
    requires counts { AreCounts board.now chosen.now counts.now }
    requires nodes { length counts.now ≡ length board.now.nodes }
    requires offered { All (λ x. x < contract_count board.now) offered.now }
    ensures rows { IfOk result (λ rows. AreRowsBelow board.now chosen.now 0 offered.now rows.items) }
    ensures outs { IfOk result (λ rows. HasOutsBelow (contract_count board.now) rows.items) }
{
    let mut rows = Vec::with_capacity(alloc, offered.len())?;
    for i in 0..offered.len() {
        rows.push(first_row(board, counts, chosen, offered[i]))?;
    }
    Ok(rows)
}

// The later one in tie order of a contract and the last one so far at its leaf.
fn later(board: &Board, last: Option<u32>, z: u32) -> u32
    requires contract { z < contract_count board.now }
    requires last { IfSome last (λ y. y < contract_count board.now) }
    ensures below { result < contract_count board.now }
    ensures last { (S : List ℕ) → IsLastAt board.now S (leaf_of board.now z) last → IsLastAt board.now (S ++ z ∷ []) (leaf_of board.now z) (Some result) }
{
    let Some(y) = last else {
        return z;
    };
    if board.tie(y) > board.tie(z) {
        return y;
    }
    z
}

// The last of the chosen contracts in tie order, for each leaf.
fn lasts(alloc: Global, board: &Board, chosen: &[u32]) -> Result<Vec<Option<u32>>, NoMemory>
    requires { IsSetBelow (contract_count board.now) chosen.now }
    ensures lasts { IfOk result (λ lasts. AreLasts board.now chosen.now lasts.items) }
    ensures below { IfOk result (λ lasts. All (λ last. IfSome last (λ z. z < contract_count board.now)) lasts.items) }
{
    let mut lasts = vec![in alloc; None; board.tree().hospitals() as usize]?;
    for i in 0..chosen.len() {
        let z = chosen[i];
        let leaf = board.leaf(z) as usize;
        let last = later(board, lasts[leaf], z);
        lasts[leaf] = Some(last);
    }
    Ok(lasts)
}

// Whether a swap changes the worth by more than another one, or by as much and puts out the later contract in tie order.
fn is_ahead(board: &Board, next: SwapRow, best: SwapRow) -> bool
    requires next { next.out < contract_count board.now }
    requires best { best.out < contract_count board.now }
    ensures { IsTrue result ↔ IsAhead board.now next best }
{
    if next.change == best.change {
        return board.tie(next.out) > board.tie(best.out);
    }
    next.change > best.change
}

// The better one of a swap for contract x and of the swap for z, the last contract at its leaf, which was taken out with
// this loss.
fn better_swap(
    board: &Board,
    counts: &[u32],
    x: u32,
    swap: Option<SwapRow>,
    z: u32,
    loss: i64,
) -> Option<SwapRow>
    requires contract { x < contract_count board.now }
    requires place { z < contract_count board.now }
    requires out { IfSome swap (λ swap. swap.out < contract_count board.now) }
    requires nodes { length counts.now ≡ length board.now.nodes }
    requires low { (pos 0 -ℤ pos (2 ^ 62)) <ℤ loss }
    requires high { loss <ℤ pos (2 ^ 62) }
    ensures out { IfSome result (λ swap. swap.out < contract_count board.now) }
    ensures swap { (S : List ℕ) (leaf : ℕ) → IsTakenOut board.now S z counts.now loss → IsLastAt board.now S leaf (Some z) → has x S ≡ false
        → IsSwapBelow board.now S leaf x swap → IsSwapBelow board.now S (leaf + 1) x result }
{
    let Some(change) = swap_change(board, counts, x, loss) else {
        return swap;
    };
    let next = SwapRow { out: z, change };
    let Some(best) = swap else {
        return Some(next);
    };
    if is_ahead(board, next, best) {
        return Some(next);
    }
    swap
}

// Looks at the swaps for z, the last chosen contract at its leaf, in the rows of all refused contracts.
fn try_swaps(board: &Board, counts: &mut [u32], offered: &[u32], rows: &mut [CertRow], z: u32)
    requires place { z < contract_count board.now }
    requires offered { All (λ x. x < contract_count board.now) offered.now }
    requires long { length rows.old ≡ length offered.now }
    requires outs { HasOutsBelow (contract_count board.now) rows.old }
    requires nodes { length counts.old ≡ length board.now.nodes }
    ensures long { length rows.new ≡ length rows.old }
    ensures outs { HasOutsBelow (contract_count board.now) rows.new }
    ensures nodes { length counts.new ≡ length counts.old }
    ensures counts { (S : List ℕ) → IsChosen board.now S → IsIn z S → AreCounts board.now S counts.old → AreCounts board.now S counts.new }
    ensures rows { (S : List ℕ) (leaf : ℕ) → IsChosen board.now S → AreCounts board.now S counts.old → IsLastAt board.now S leaf (Some z)
        → AreRowsBelow board.now S leaf offered.now rows.old → AreRowsBelow board.now S (leaf + 1) offered.now rows.new }
{
    let loss = take_out(board, counts, z);
    for i in 0..offered.len() {
        let row = rows[i];
        if row.kept {
            continue;
        }
        rows[i].swap = better_swap(board, counts, offered[i], row.swap, z, loss);
    }
    count_in(board, counts, z);
}

// Looks at all swaps, leaf by leaf.
fn try_leaves(
    board: &Board,
    counts: &mut [u32],
    offered: &[u32],
    rows: &mut [CertRow],
    lasts: &[Option<u32>],
)
    requires offered { All (λ x. x < contract_count board.now) offered.now }
    requires lasts { All (λ last. IfSome last (λ z. z < contract_count board.now)) lasts.now }
    requires long { length rows.old ≡ length offered.now }
    requires outs { HasOutsBelow (contract_count board.now) rows.old }
    requires nodes { length counts.old ≡ length board.now.nodes }
    ensures rows { (S : List ℕ) → IsChosen board.now S → AreCounts board.now S counts.old → AreLasts board.now S lasts.now
        → AreRowsBelow board.now S 0 offered.now rows.old → AreRowsBelow board.now S (length lasts.now) offered.now rows.new }
{
    for leaf in 0..lasts.len() {
        let Some(z) = lasts[leaf] else {
            continue;
        };
        try_swaps(board, counts, offered, rows, z);
    }
}

/// What the best choice does with each offered contract, one row each, in the order of `offered`, which holds distinct
/// contracts. `chosen` is their best subset, strictly ascending.
///
/// A kept contract's row has the change of worth that the choice loses without it. A refused one's row has the change of
/// worth by adding it, or, where that isn't feasible, the innermost node of its chain that is at its cap; and the chosen
/// contract in whose place it makes a better set than in any other's, with that change of worth, if any such swap is
/// feasible. Contracts and nodes are told by number, from 0; a change of worth may be negative. `NoMemory` comes only where
/// memory for the rows, for a count of each node or for one entry of each hospital is wanting.
///
/// The chosen contracts of one hospital change the worth alike, so that of each hospital only the last one in tie order is
/// looked at: once for each refused contract, at the cost of the length of its chain of nodes.
pub fn certificate(
    alloc: Global,
    board: &Board,
    offered: &[u32],
    chosen: &[u32],
) -> Result<Vec<CertRow>, NoMemory>
    requires board { IsMarketBoard board.now }
    requires offered { All (λ x. x < contract_count board.now) offered.now }
    requires best { IsBest (values_of board.now) offered.now chosen.now }
    ensures rows { IfOk result (λ rows. rows.items ≡ certificate_of board.now offered.now chosen.now) }
    ensures says { IfOk result (λ rows. AreRowsOf board.now chosen.now offered.now rows.items) }
{
    let mut counts = vec![in alloc; 0; board.tree().nodes() as usize]?;
    count_all(board, &mut counts, chosen);
    let mut rows = first_rows(alloc, board, &counts, offered, chosen)?;
    let lasts = lasts(alloc, board, chosen)?;
    try_leaves(board, &mut counts, offered, &mut rows, &lasts);
    Ok(rows)
}

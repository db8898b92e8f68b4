//! Worth of sets of contracts on a board, by counts at its nodes, and what one contract more or less changes.
#![tactic(auto)]

ghost use Rattle.std.specs.Prelude.{◌≡◌, ◌+◌, ◌-◌, ◌*◌, ◌^◌, ◌<◌, ◌≤◌, ◌==◌, ℕ, ℤ, pos, ◌-ℤ◌, ◌≤ℤ◌, ◌<ℤ◌, List, [], length, replicate, min, count_by, slice_get, slice_index, slice_index_or, All, IfSome, IsTrue, IsFalse};
ghost use Rattle.rm_sets.specs.Sets.{has, IsIn, IsSet, IsSetBelow, with_one, without};
ghost use Rattle.rm_market.specs.Board.{Board as MarketBoard, contract_count, node_at, is_feasible, total, worth};
ghost use Rattle.rm_market.specs.Best.{IsValuation, values_of};
ghost use Rattle.rm_valuation_laws.specs.Changes.{IsChain};
ghost use Rattle.rm_valuation.specs.Counts.{IsMarketBoard, AreCounts, IsGain};

use rm_board::Board;

mod counting;
mod laminar;

pub use counting::{count_all, first_over};
pub use laminar::Laminar;

// The nodes of contract x, innermost first.
fn chain(board: &Board, x: u32) -> &[u32]
    requires { x < contract_count board.now }
    ensures chain { IsChain board.now x result.now }
    ensures few { length result.now < 2 ^ 32 }
{
    let tree = board.tree();
    let nodes = tree.nodes();
    let chain = tree.chain(board.leaf(x));
    prove!(chain.len() <= nodes as usize);
    chain
}

// Adds one to the numbers at some places.
fn raise(counts: &mut [u32], places: &[u32])
    requires { All (λ k. k < length counts.old) places.now }
    ensures length { length counts.new ≡ length counts.old }
    ensures numbers { (k : ℕ) → k < length counts.old
        → slice_index counts.new k ≡ min (slice_index counts.old k + count_by (λ p. p == k) places.now) 4294967295 }
{
    for i in 0..places.len() {
        let place = places[i] as usize;
        counts[place] = counts[place].saturating_add(1);
    }
}

// Takes one from the numbers at some places.
fn lower(counts: &mut [u32], places: &[u32])
    requires { All (λ k. k < length counts.old) places.now }
    ensures length { length counts.new ≡ length counts.old }
    ensures numbers { (k : ℕ) → k < length counts.old → slice_index counts.new k ≡ slice_index counts.old k - count_by (λ p. p == k) places.now }
{
    for i in 0..places.len() {
        let place = places[i] as usize;
        counts[place] = counts[place].saturating_sub(1);
    }
}

/// Makes the counts those of the empty set. The slice has one number for each node of a board.
pub fn count_none(counts: &mut [u32])
    ensures zero { counts.new ≡ replicate (length counts.old) 0 }
    ensures none { (b : MarketBoard) → length counts.old ≡ length b.nodes → AreCounts b [] counts.new }
{
    for i in 0..counts.len() {
        counts[i] = 0;
    }
}

/// Counts contract x in: from the counts of a set without x, those of the set with it.
pub fn count_in(board: &Board, counts: &mut [u32], x: u32)
    requires contract { x < contract_count board.now }
    requires nodes { length counts.old ≡ length board.now.nodes }
    ensures nodes { length counts.new ≡ length board.now.nodes }
    ensures counts { (S : List ℕ) → IsSetBelow (contract_count board.now) S → IsFalse (has x S) → AreCounts board.now S counts.old
        → AreCounts board.now (with_one S x) counts.new }
{
    let contracts = board.contracts();
    prove!(x < contracts);
    raise(counts, chain(board, x));
}

/// Counts contract z out: from the counts of a set with z, those of the set without it.
pub fn count_out(board: &Board, counts: &mut [u32], z: u32)
    requires contract { z < contract_count board.now }
    requires nodes { length counts.old ≡ length board.now.nodes }
    ensures nodes { length counts.new ≡ length board.now.nodes }
    ensures counts { (S : List ℕ) → IsSetBelow (contract_count board.now) S → IsIn z S → AreCounts board.now S counts.old
        → AreCounts board.now (without S z) counts.new }
{
    lower(counts, chain(board, z));
}

// The sum of the first steps of a node, as many as it has contracts.
fn total_at(board: &Board, counts: &[u32], node: u32) -> i128
    requires node { node < length board.now.nodes }
    requires nodes { length counts.now ≡ length board.now.nodes }
    ensures total { result ≡ total (node_at board.now node).steps (slice_index counts.now node) }
    ensures low { (pos 0 -ℤ pos (2 ^ 60)) ≤ℤ result }
    ensures high { result ≤ℤ pos (2 ^ 60) }
{
    let steps = board.steps(node);
    let cap = steps.cap();
    prove!(cap <= 1_000_000);
    steps.total(counts[node as usize])
}

/// The worth of the set that has these counts.
pub fn worth(board: &Board, counts: &[u32]) -> i128
    requires nodes { length counts.now ≡ length board.now.nodes }
    ensures { (S : List ℕ) → AreCounts board.now S counts.now → result ≡ worth board.now S }
{
    let mut sum = 0;
    for node in 0..board.tree().nodes() {
        sum += total_at(board, counts, node);
    }
    sum
}

/// The step that the next contract at a node takes. None exactly where the node is full. The counts have one number for
/// each node, which counts from 0.
pub fn next_step(board: &Board, counts: &[u32], node: u32) -> Option<i64>
    requires node { node < length board.now.nodes }
    requires nodes { length counts.now ≡ length board.now.nodes }
    ensures step { result ≡ slice_get (node_at board.now node).steps (slice_index counts.now node) }
    ensures range { IfSome result (λ step. ((pos 0 -ℤ pos 1_000_000_000) ≤ℤ step) × (step ≤ℤ pos 1_000_000_000)) }
{
    let steps = board.steps(node);
    let count = counts[node as usize];
    if count >= steps.cap() {
        return None;
    }
    steps.step(count + 1)
}

/// The step that the last contract at a node takes: its first step where it has no contract, and 0 where it has no steps
/// either. The counts have one number for each node, which counts from 0.
pub fn last_step(board: &Board, counts: &[u32], node: u32) -> i64
    requires node { node < length board.now.nodes }
    requires nodes { length counts.now ≡ length board.now.nodes }
    ensures step { result ≡ slice_index_or (node_at board.now node).steps (slice_index counts.now node - 1) (pos 0) }
    ensures low { (pos 0 -ℤ pos 1_000_000_000) ≤ℤ result }
    ensures high { result ≤ℤ pos 1_000_000_000 }
{
    let steps = board.steps(node);
    let cap = steps.cap();
    prove!(cap <= 1_000_000);
    steps.step(counts[node as usize].max(1)).unwrap_or(0)
}

/// The change of worth by adding contract x to the feasible set without x that has these counts. None exactly where that
/// set with x isn't feasible.
pub fn gain(board: &Board, counts: &[u32], x: u32) -> Option<i64>
    requires contract { x < contract_count board.now }
    requires nodes { length counts.now ≡ length board.now.nodes }
    ensures change { (S : List ℕ) → IsFalse (has x S) → IsTrue (is_feasible board.now S) → AreCounts board.now S counts.now → IsGain board.now S x result }
    ensures range { IfSome result (λ change. ((pos 0 -ℤ pos (2 ^ 62)) <ℤ change) × (change <ℤ pos (2 ^ 62))) }
{
    let chain = chain(board, x);
    let mut sum = 0;
    for i in 0..chain.len() {
        let Some(step) = next_step(board, counts, chain[i]) else {
            return None;
        };
        sum += step;
    }
    Some(sum)
}

/// The worth of the feasible set with contract z that has these counts, less its worth without z.
pub fn loss(board: &Board, counts: &[u32], z: u32) -> i64
    requires contract { z < contract_count board.now }
    requires nodes { length counts.now ≡ length board.now.nodes }
    ensures change { (S : List ℕ) → IsSet S → IsIn z S → IsTrue (is_feasible board.now S) → AreCounts board.now S counts.now
        → result ≡ worth board.now S -ℤ worth board.now (without S z) }
    ensures low { (pos 0 -ℤ pos (2 ^ 62)) <ℤ result }
    ensures high { result <ℤ pos (2 ^ 62) }
{
    let chain = chain(board, z);
    let mut sum = 0;
    for i in 0..chain.len() {
        sum += last_step(board, counts, chain[i]);
    }
    sum
}

#[cfg(test)]
mod tests;

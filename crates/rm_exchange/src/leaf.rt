// What is held of each hospital, the contract of greatest number on top, and how much it may hold.

ghost use Rattle.std.specs.Prelude.{◌≡◌, ◌↔◌, ◌∷◌, ◌<◌, ◌≤◌, ℕ, List, [], length, get_or, IfOk, IfSome, IsTrue};
ghost use Rattle.std.specs.Ordering.{nat_cmp};
ghost use Rattle.std.specs.List.Sorted.{IsPermutation};
ghost use Rattle.std.specs.BinaryHeap.{heap_items, heap_len, heap_capacity, IsHeap, KeepsHeap};
ghost use Rattle.rm_sets.specs.Sets.{IsIn, below};
ghost use Rattle.rm_market.specs.Board.{contract_count, leaf_of, count_at};
ghost use Rattle.rm_board.specs.TieKeys.{tie_key};
ghost use Rattle.rm_exchange.specs.Leaves.{IsGreatestOf, IsOwnRemovalOf, IsTieOf, room_at, AreLeaves};

use crate::removal::Removal;
use rm_board::Board;
use rm_choice::NoMemory;
use std::alloc::Global;
use std::collections::BinaryHeap;

// The held contracts of a hospital, how many its own node may hold, and the held contract of greatest number with its tie key,
// which means nothing where no contract is held. That one is the cheapest to displace: no node lies inside a hospital's own, and
// of its contracts the greatest number is the last in tie order.
#[derive(Drop)]
pub struct Leaf {
    pub held: BinaryHeap<u32>,
    pub cap: u32,
    pub last: Option<u32>,
    pub tie: u32,
}

impl Leaf {
    // Whether the hospital's own node is full.
    pub(crate) fn is_full(&self) -> bool
        ensures { IsTrue result ↔ (self.now.cap ≤ heap_len self.now.held) }
    {
        self.held.len() >= self.cap as usize
    }
}

// The removal of the last contract of a hospital, by itself, if it holds any.
pub(crate) fn last_removal(leaf: &Leaf) -> Option<Removal>
    ensures { (key : ℕ → ℕ) → IsTieOf key leaf.now.last leaf.now.tie → IsOwnRemovalOf key leaf.now.last result }
{
    let Some(x) = leaf.last else {
        return None;
    };
    Some(Removal {
        contract: x,
        tie: leaf.tie,
        loss: 0,
    })
}

// The greatest number of a heap, if there is any.
fn greatest(held: &BinaryHeap<u32>) -> Option<u32>
    requires { IsHeap nat_cmp (heap_items held.now) }
    ensures { IsGreatestOf (heap_items held.now) result }
{
    let Some(x) = held.peek() else {
        return None;
    };
    Some(*x)
}

// The tie key of a contract, or 0 if there is none.
fn tie_of(board: &Board, last: Option<u32>) -> u32
    requires { IfSome last (λ x. x < contract_count board.now) }
    ensures { IsTieOf (tie_key board.now) last result }
{
    match last {
        Some(x) => board.tie_key(x),
        None => 0,
    }
}

// Holds contract x too.
pub(crate) fn put_in(board: &Board, leaf: &mut Leaf, x: u32)
    requires contract { x < contract_count board.now }
    requires room { heap_len leaf.old.held < heap_capacity leaf.old.held }
    requires last { IsGreatestOf (heap_items leaf.old.held) leaf.old.last }
    requires tie { IsTieOf (tie_key board.now) leaf.old.last leaf.old.tie }
    ensures items { IsPermutation (x ∷ heap_items leaf.old.held) (heap_items leaf.new.held) }
    ensures order { KeepsHeap nat_cmp (heap_items leaf.old.held) (heap_items leaf.new.held) }
    ensures last { IsGreatestOf (heap_items leaf.new.held) leaf.new.last }
    ensures tie { IsTieOf (tie_key board.now) leaf.new.last leaf.new.tie }
    ensures cap { leaf.new.cap ≡ leaf.old.cap }
    ensures room { heap_capacity leaf.old.held ≤ heap_capacity leaf.new.held }
{
    if leaf.held.push(x).is_err() {
        return;
    }
    if let Some(last) = leaf.last {
        if x < last {
            return;
        }
    }
    leaf.last = Some(x);
    leaf.tie = board.tie_key(x);
}

// Lets the greatest contract go.
pub(crate) fn take_greatest(board: &Board, leaf: &mut Leaf)
    requires order { IsHeap nat_cmp (heap_items leaf.old.held) }
    requires known { (y : ℕ) → IsIn y (heap_items leaf.old.held) → y < contract_count board.now }
    ensures items { (z : ℕ) → IsIn z (heap_items leaf.old.held) → ((y : ℕ) → IsIn y (heap_items leaf.old.held) → y ≤ z)
        → IsPermutation (heap_items leaf.old.held) (z ∷ heap_items leaf.new.held) }
    ensures order { IsHeap nat_cmp (heap_items leaf.new.held) }
    ensures last { IsGreatestOf (heap_items leaf.new.held) leaf.new.last }
    ensures tie { IsTieOf (tie_key board.now) leaf.new.last leaf.new.tie }
    ensures cap { leaf.new.cap ≡ leaf.old.cap }
    ensures room { heap_capacity leaf.new.held ≡ heap_capacity leaf.old.held }
{
    leaf.held.pop();
    let last = greatest(&leaf.held);
    leaf.tie = tie_of(board, last);
    leaf.last = last;
}

// How many contracts each hospital has.
fn contracts_at(alloc: Global, board: &Board) -> Result<Vec<u32>, NoMemory>
    ensures wide { IfOk result (λ counts. length counts.items ≡ length board.now.ranks) }
    ensures counts { IfOk result (λ counts. (h : ℕ) → h < length board.now.ranks
        → get_or counts.items h 0 ≡ count_at board.now (below (contract_count board.now)) h) }
    ensures leaves { IfOk result (λ counts. (x : ℕ) → x < contract_count board.now → leaf_of board.now x < length board.now.ranks) }
{
    let hospitals = board.tree().hospitals();
    let mut counts = vec![in alloc; 0; hospitals as usize]?;
    for x in 0..board.contracts() {
        counts[board.leaf(x) as usize] += 1;
    }
    Ok(counts)
}

// Leaves that hold nothing, each with room for as many contracts as its hospital's own node may hold, or for all contracts of the
// hospital, if these are fewer.
pub(crate) fn empty_leaves(alloc: Global, board: &Board) -> Result<Vec<Leaf>, NoMemory>
    ensures none { IfOk result (λ leaves. AreLeaves board.now [] leaves.items) }
    ensures room { IfOk result (λ leaves. (h : ℕ) (d : Leaf) → h < length board.now.ranks
        → heap_capacity (get_or leaves.items h d).held ≡ room_at board.now h) }
    ensures leaves { IfOk result (λ leaves. (x : ℕ) → x < contract_count board.now → leaf_of board.now x < length board.now.ranks) }
{
    let counts = contracts_at(alloc, board)?;
    let tree = board.tree();
    let mut leaves = Vec::with_capacity(alloc, counts.len())?;
    for h in 0..tree.hospitals() {
        let cap = board.steps(h).cap();
        let room = cap.min(counts[h as usize]);
        let held = BinaryHeap::with_capacity(alloc, room as usize)?;
        leaves.push(Leaf {
            held,
            cap,
            last: None,
            tie: 0,
        })?;
    }
    Ok(leaves)
}

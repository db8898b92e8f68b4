// The contracts of a placement, by the nodes of a board.

ghost use Rattle.std.specs.Prelude.{◌≡◌, ◌<◌, ◌++◌, ℕ, List, [], ◌∷◌, length, replicate, None, IfOk};
ghost use Rattle.rm_sets.specs.Sets.{IsSetBelow};
ghost use Rattle.rm_market.specs.Board.{contract_count, leaf_of, is_feasible, sets_of};
ghost use Rattle.rm_market.specs.Best.{values_of};
ghost use Rattle.rm_market.specs.Certificate.{better_without};
ghost use Rattle.rm_market.specs.Tree.{chain};
ghost use Rattle.rm_valuation.specs.Counts.{AreCounts, IsMarketBoard};
ghost use Rattle.rm_exchange.specs.Counted.{IsChosen};
ghost use Rattle.rm_audit.specs.Placed.{AreCheapest, cheaper_of, IsWalkable};

use rm_base::NoMemory;
use rm_board::Board;
use rm_valuation::{count_all, last_step, loss};
use std::alloc::Global;

// The removal of a placed contract: what is lost without it at the nodes so far, and its tie key.
#[derive(Clone, Copy)]
pub struct Removal {
    pub loss: i64,
    pub tie: u32,
}

// The nodes of contract x, innermost first.
pub(crate) fn chain_of(board: &Board, x: u32) -> &[u32]
    requires { x < contract_count board.now }
    ensures { result.now ≡ chain (sets_of board.now) (leaf_of board.now x) }
{
    let tree = board.tree();
    tree.chain(board.leaf(x))
}

// How many of these contracts each node has.
pub(crate) fn counts_of(
    alloc: Global,
    board: &Board,
    contracts: &[u32],
) -> Result<Vec<u32>, NoMemory>
    requires { IsSetBelow (contract_count board.now) contracts.now }
    ensures nodes { IfOk result (λ counts. length counts.items ≡ length board.now.nodes) }
    ensures counts { IfOk result (λ counts. AreCounts board.now contracts.now counts.items) }
{
    let mut counts = vec![in alloc; 0; board.tree().nodes() as usize]?;
    count_all(board, &mut counts, contracts);
    Ok(counts)
}

// The least of these contracts whose removal is better.
pub(crate) fn first_unwanted(board: &Board, counts: &[u32], contracts: &[u32]) -> Option<u32>
    requires chosen { IsChosen board.now contracts.now }
    requires counts { AreCounts board.now contracts.now counts.now }
    requires nodes { length counts.now ≡ length board.now.nodes }
    ensures { result ≡ better_without (values_of board.now) contracts.now }
{
    for i in 0..contracts.len() {
        let z = contracts[i];
        if loss(board, counts, z) < 0 {
            return Some(z);
        }
    }
    None
}

// The removal that loses less, of equal loss the later in tie order.
fn cheaper(old: Option<Removal>, new: Removal) -> Removal
    ensures { result ≡ cheaper_of old new }
{
    let Some(old) = old else {
        return new;
    };
    if old.loss < new.loss || (old.loss == new.loss && new.tie <= old.tie) {
        old
    } else {
        new
    }
}

// Of these contracts, by node, the one whose removal loses least inside the node.
pub(crate) fn cheapest_of(
    alloc: Global,
    board: &Board,
    counts: &[u32],
    contracts: &[u32],
) -> Result<Vec<Option<Removal>>, NoMemory>
    requires board { IsMarketBoard board.now }
    requires leaves { (x : ℕ) → x < contract_count board.now → leaf_of board.now x < length board.now.ranks }
    requires set { IsSetBelow (contract_count board.now) contracts.now }
    requires counts { AreCounts board.now contracts.now counts.now }
    requires nodes { length counts.now ≡ length board.now.nodes }
    ensures chains { IfOk result (λ cheapest. IsWalkable board.now) }
    ensures cheapest { IfOk result (λ cheapest. AreCheapest board.now contracts.now contracts.now cheapest.items) }
{
    let mut cheapest = vec![in alloc; None; board.tree().nodes() as usize]?;
    enter_all(board, counts, &mut cheapest, contracts);
    Ok(cheapest)
}

// Enters these contracts, each at its nodes, where none is entered yet.
fn enter_all(board: &Board, counts: &[u32], cheapest: &mut [Option<Removal>], contracts: &[u32])
    requires chains { IsWalkable board.now }
    requires set { IsSetBelow (contract_count board.now) contracts.now }
    requires counts { AreCounts board.now contracts.now counts.now }
    requires nodes { length counts.now ≡ length board.now.nodes }
    requires none { cheapest.old ≡ replicate (length board.now.nodes) None }
    ensures { AreCheapest board.now contracts.now contracts.now cheapest.new }
{
    for i in 0..contracts.len() {
        enter(board, counts, cheapest, contracts[i]);
    }
}

// Enters contract z at each of its nodes.
fn enter(board: &Board, counts: &[u32], cheapest: &mut [Option<Removal>], z: u32)
    requires chains { IsWalkable board.now }
    requires contract { z < contract_count board.now }
    requires nodes { length counts.now ≡ length board.now.nodes }
    requires table { length cheapest.old ≡ length board.now.nodes }
    ensures table { length cheapest.new ≡ length board.now.nodes }
    ensures entered { (S before : List ℕ) → AreCounts board.now S counts.now → AreCheapest board.now S before cheapest.old
        → AreCheapest board.now S (before ++ z ∷ []) cheapest.new }
{
    let chain = chain_of(board, z);
    let tie = board.tie_key(z);
    let mut loss = 0;
    for i in 0..chain.len() {
        let node = chain[i];
        let old = cheapest[node as usize];
        cheapest[node as usize] = Some(cheaper(old, Removal { loss, tie }));
        loss += last_step(board, counts, node);
    }
}

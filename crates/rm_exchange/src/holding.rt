// The held contracts by node, mended along one chain as a contract comes or goes.

ghost use Rattle.std.specs.Prelude.{◌≡◌, ◌<◌, ◌≤◌, ◌-ℤ◌, ◌≤ℤ◌, pos, ℕ, List, [], true, not, length, get_or, set, IsTrue, IsFalse, IfSome};
ghost use Rattle.rm_sets.specs.Sets.{has, IsIn, with_one, without};
ghost use Rattle.rm_market.specs.Board.{contract_count, leaf_of, sets_of, is_feasible};
ghost use Rattle.rm_market.specs.Best.{swapped};
ghost use Rattle.rm_market.specs.Tree.{chain};
ghost use Rattle.rm_valuation_laws.specs.Changes.{test_at};
ghost use Rattle.rm_exchange.specs.Removals.{IsCheapestOf};
ghost use Rattle.rm_exchange.specs.Entrants.{HasHospitals, IsBestAt};
ghost use Rattle.rm_exchange.specs.Leaves.{AreLeaves};
ghost use Rattle.rm_exchange.specs.Holding.{held_in, AreNexts, IsAllKept, IsKeptBut, IsFurther, IsLastHeld};

use crate::leaf::{Leaf, last_removal, put_in, take_greatest};
use crate::removal::Removal;
use crate::tournament::Tournament;
use rm_board::Board;
use rm_valuation::{count_in, count_out, last_step, next_step};

// What is held: the counts of the nodes, the step that the next contract takes at each node, a mark for each contract, the leaf of
// each hospital, and at each node the rivals for removal, which are the nodes just inside.
#[derive(Drop)]
pub struct Holding {
    pub counts: Vec<u32>,
    pub nexts: Vec<Option<i64>>,
    pub marks: Vec<bool>,
    pub leaves: Vec<Leaf>,
    pub rivals: Vec<Tournament>,
}

// The nodes of contract x, innermost first.
pub(crate) fn chain_of(board: &Board, x: u32) -> &[u32]
    requires { x < contract_count board.now }
    ensures { result.now ≡ chain (sets_of board.now) (leaf_of board.now x) }
{
    let tree = board.tree();
    tree.chain(board.leaf(x))
}

// The held contract of a node that is the cheapest to displace there.
pub(crate) fn cheapest_at(board: &Board, holding: &Holding, node: u32) -> Option<Removal>
    requires node { node < length board.now.nodes }
    requires kept { (places : List ℕ) × IsAllKept board.now places holding.now }
    ensures { IsBestAt board.now (held_in board.now holding.now) node result }
{
    if (node as usize) < holding.leaves.len() {
        return last_removal(&holding.leaves[node as usize]);
    }
    holding.rivals[node as usize].best()
}

// Changes one rival at a node, and says which one is the cheapest there.
fn change(
    rivals: &mut Vec<Tournament>,
    node: u32,
    place: usize,
    entry: Option<Removal>,
) -> Option<Removal>
    requires node { node < length rivals.old.items }
    requires place { place < length (get_or rivals.old.items node []) }
    ensures rivals { rivals.new.items ≡ set rivals.old.items node (set (get_or rivals.old.items node []) place entry) }
    ensures best { IsCheapestOf (get_or rivals.new.items node []) result }
{
    let rival = &mut rivals[node as usize];
    rival.put(place, entry);
    rival.best()
}

// A removal that loses one more step.
fn further(best: Option<Removal>, step: i64) -> Option<Removal>
    requires low { (pos 0 -ℤ pos 1_000_000_000) ≤ℤ step }
    requires high { step ≤ℤ pos 1_000_000_000 }
    requires small { IfSome best (λ r. ((pos 0 -ℤ pos 4_400_000_000_000_000_000) ≤ℤ r.loss) × (r.loss ≤ℤ pos 4_400_000_000_000_000_000)) }
    ensures { IsFurther best step result }
{
    let Some(removal) = best else {
        return None;
    };
    Some(Removal {
        contract: removal.contract,
        tie: removal.tie,
        loss: removal.loss + step,
    })
}

// Finds the next step of each node of contract x anew.
fn renew(board: &Board, counts: &[u32], nexts: &mut Vec<Option<i64>>, x: u32)
    requires contract { x < contract_count board.now }
    requires hospitals { HasHospitals board.now }
    requires nodes { length counts.now ≡ length board.now.nodes }
    requires nexts { AreNexts board.now (λ k. not (test_at board.now k x)) counts.now nexts.old.items }
    ensures { AreNexts board.now (λ k. true) counts.now nexts.new.items }
{
    let chain = chain_of(board, x);
    for i in 0..chain.len() {
        let node = chain[i];
        nexts[node as usize] = next_step(board, counts, node);
    }
}

// Brings the rivals along the chain of contract x up to date.
fn mend(board: &Board, places: &[usize], holding: &mut Holding, x: u32)
    requires contract { x < contract_count board.now }
    requires kept { IsKeptBut board.now x places.now holding.old }
    ensures kept { IsAllKept board.now places.now holding.new }
    ensures held { held_in board.now holding.new ≡ held_in board.now holding.old }
{
    let chain = chain_of(board, x);
    if chain.len() < 2 {
        return;
    }
    let mut best = last_removal(&holding.leaves[board.leaf(x) as usize]);
    for i in 1..chain.len() {
        let inner = chain[i - 1];
        let entry = further(best, last_step(board, &holding.counts, inner));
        best = change(&mut holding.rivals, chain[i], places[inner as usize], entry);
    }
}

// Puts contract x in at its leaf, which has room for all that is feasible.
fn enter_leaf(board: &Board, holding: &mut Holding, x: u32)
    requires contract { x < contract_count board.now }
    requires hospitals { HasHospitals board.now }
    requires leaves { AreLeaves board.now (held_in board.now holding.old) holding.old.leaves.items }
    requires new { IsFalse (has x (held_in board.now holding.old)) }
    requires feasible { IsTrue (is_feasible board.now (with_one (held_in board.now holding.old) x)) }
    ensures leaves { AreLeaves board.now (with_one (held_in board.now holding.old) x) holding.new.leaves.items }
    ensures counts { holding.new.counts.items ≡ holding.old.counts.items }
    ensures nexts { holding.new.nexts.items ≡ holding.old.nexts.items }
    ensures marks { holding.new.marks.items ≡ holding.old.marks.items }
    ensures rivals { holding.new.rivals.items ≡ holding.old.rivals.items }
{
    let leaf = &mut holding.leaves[board.leaf(x) as usize];
    put_in(board, leaf, x);
}

// Takes contract z out at its leaf, where it is the one of greatest number.
fn leave_leaf(board: &Board, holding: &mut Holding, z: u32)
    requires contract { z < contract_count board.now }
    requires hospitals { HasHospitals board.now }
    requires leaves { AreLeaves board.now (held_in board.now holding.old) holding.old.leaves.items }
    requires held { IsIn z (held_in board.now holding.old) }
    requires greatest { (y : ℕ) → IsIn y (held_in board.now holding.old) → leaf_of board.now y ≡ leaf_of board.now z → y ≤ z }
    ensures leaves { AreLeaves board.now (without (held_in board.now holding.old) z) holding.new.leaves.items }
    ensures counts { holding.new.counts.items ≡ holding.old.counts.items }
    ensures nexts { holding.new.nexts.items ≡ holding.old.nexts.items }
    ensures marks { holding.new.marks.items ≡ holding.old.marks.items }
    ensures rivals { holding.new.rivals.items ≡ holding.old.rivals.items }
{
    let leaf = &mut holding.leaves[board.leaf(z) as usize];
    take_greatest(board, leaf);
}

// Marks contract x as held, or as not held.
fn mark(holding: &mut Holding, x: u32, held: bool)
    requires { x < length holding.old.marks.items }
    ensures marks { holding.new.marks.items ≡ set holding.old.marks.items x held }
    ensures counts { holding.new.counts.items ≡ holding.old.counts.items }
    ensures nexts { holding.new.nexts.items ≡ holding.old.nexts.items }
    ensures leaves { holding.new.leaves.items ≡ holding.old.leaves.items }
    ensures rivals { holding.new.rivals.items ≡ holding.old.rivals.items }
{
    holding.marks[x as usize] = held;
}

// Holds contract x too, where that is feasible.
pub(crate) fn hold(board: &Board, places: &[usize], holding: &mut Holding, x: u32)
    requires contract { x < contract_count board.now }
    requires kept { IsAllKept board.now places.now holding.old }
    requires new { IsFalse (has x (held_in board.now holding.old)) }
    requires feasible { IsTrue (is_feasible board.now (with_one (held_in board.now holding.old) x)) }
    ensures kept { IsAllKept board.now places.now holding.new }
    ensures held { held_in board.now holding.new ≡ with_one (held_in board.now holding.old) x }
{
    count_in(board, &mut holding.counts, x);
    renew(board, &holding.counts, &mut holding.nexts, x);
    enter_leaf(board, holding, x);
    mark(holding, x, true);
    mend(board, places, holding, x);
}

// Lets contract z go, which is the one of greatest number at its leaf.
pub(crate) fn release(board: &Board, places: &[usize], holding: &mut Holding, z: u32)
    requires contract { z < contract_count board.now }
    requires kept { IsAllKept board.now places.now holding.old }
    requires held { IsIn z (held_in board.now holding.old) }
    requires greatest { (y : ℕ) → IsIn y (held_in board.now holding.old) → leaf_of board.now y ≡ leaf_of board.now z → y ≤ z }
    ensures kept { IsAllKept board.now places.now holding.new }
    ensures held { held_in board.now holding.new ≡ without (held_in board.now holding.old) z }
{
    count_out(board, &mut holding.counts, z);
    renew(board, &holding.counts, &mut holding.nexts, z);
    leave_leaf(board, holding, z);
    mark(holding, z, false);
    mend(board, places, holding, z);
}

// Holds contract x in the place of the one of greatest number at the same leaf. Their nodes are the same, and no count changes.
pub(crate) fn swap_at_leaf(
    board: &Board,
    places: &[usize],
    holding: &mut Holding,
    x: u32,
    last: u32,
)
    requires contract { x < contract_count board.now }
    requires kept { IsAllKept board.now places.now holding.old }
    requires new { IsFalse (has x (held_in board.now holding.old)) }
    requires last { IsLastHeld board.now (held_in board.now holding.old) (leaf_of board.now x) last }
    requires feasible { IsTrue (is_feasible board.now (swapped (held_in board.now holding.old) x last)) }
    ensures kept { IsAllKept board.now places.now holding.new }
    ensures held { held_in board.now holding.new ≡ swapped (held_in board.now holding.old) x last }
{
    leave_leaf(board, holding, last);
    mark(holding, last, false);
    enter_leaf(board, holding, x);
    mark(holding, x, true);
    mend(board, places, holding, last);
}

// The places of nodes at the nodes just outside them.

ghost use Rattle.std.specs.Prelude.{◌≡◌, ◌+◌, ◌<◌, ◌≤◌, ◌∷◌, [], ℕ, All, ◌^◌, length, get_or, set, IfOk, IfSome};
ghost use Rattle.rm_market.specs.Board.{sets_of};
ghost use Rattle.rm_market.specs.Tree.{set_of};
ghost use Rattle.rm_exchange.specs.Holding.{ArePlacedSo, IsEntered};

use rm_board::Board;
use rm_choice::NoMemory;
use std::alloc::Global;

// The place of each node at the node just outside it, and how many places there are at each node.
#[derive(Drop)]
pub struct Places {
    pub places: Vec<usize>,
    pub widths: Vec<usize>,
}

// One more place at a node.
fn enter(widths: &mut Vec<usize>, node: u32) -> usize
    requires node { node < length widths.old.items }
    requires few { get_or widths.old.items node 0 < 2 ^ 40 }
    ensures place { result ≡ get_or widths.old.items node 0 }
    ensures widths { widths.new.items ≡ set widths.old.items node (get_or widths.old.items node 0 + 1) }
{
    let place = widths[node as usize];
    widths[node as usize] = place + 1;
    place
}

// One more place at a node, if there is one.
fn enter_if_any(widths: &mut Vec<usize>, node: Option<u32>) -> usize
    requires node { IfSome node (λ k. k < length widths.old.items) }
    requires few { IfSome node (λ k. get_or widths.old.items k 0 < 2 ^ 40) }
    ensures { IsEntered node widths.old.items widths.new.items result }
{
    match node {
        Some(node) => enter(widths, node),
        None => 0,
    }
}

// All places.
pub(crate) fn all_places(alloc: Global, board: &Board) -> Result<Places, NoMemory>
    ensures own { IfOk result (λ at. (h : ℕ) → h < length board.now.ranks → set_of (sets_of board.now) h ≡ h ∷ []) }
    ensures hospitals { IfOk result (λ at. length board.now.ranks ≤ length board.now.nodes) }
    ensures small { IfOk result (λ at. length board.now.nodes < 4_294_967_296) }
    ensures few { IfOk result (λ at. All (λ width. width < 2 ^ 40) at.widths.items) }
    ensures wide { IfOk result (λ at. length at.widths.items ≡ length board.now.nodes) }
    ensures placed { IfOk result (λ at. ArePlacedSo board.now (length board.now.nodes) at.widths.items at.places.items) }
{
    let tree = board.tree();
    let nodes = tree.nodes();
    let mut places = Vec::with_capacity(alloc, nodes as usize)?;
    let mut widths = vec![in alloc; 0; nodes as usize]?;
    for node in 0..nodes {
        let place = enter_if_any(&mut widths, tree.parent(node));
        places.push(place)?;
    }
    Ok(Places { places, widths })
}

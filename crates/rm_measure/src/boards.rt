// The board of a roster without groups.

ghost use Rattle.std.specs.Prelude.{◌≡◌, length, IfSome};
ghost use Rattle.rm_market.specs.Tree.{sets_of_tree};

use rm_board::{Board, TieRule};
use rm_laminar::Tree;
use rm_roster::Roster;
use rm_steps::Steps;
use std::alloc::Global;

// Per hospital as many steps of 0 as it has seats.
fn flat_steps(alloc: Global, roster: &Roster) -> Option<Vec<Steps>>
    ensures { IfSome result (λ steps. length steps.items ≡ length roster.now.hospitals) }
{
    let mut steps = Vec::new(alloc);
    for h in 0..roster.hospitals().len() {
        let Ok(own) = Steps::flat(alloc, roster.capacity(h)) else {
            return None;
        };
        if steps.push(own).is_err() {
            return None;
        }
    }
    Some(steps)
}

// The tree of the hospitals of a roster.
fn flat_tree(alloc: Global, roster: &Roster) -> Option<Tree>
    ensures hospitals { IfSome result (λ tree. tree.hospitals ≡ length roster.now.hospitals) }
    ensures nodes { IfSome result (λ tree. length (sets_of_tree tree) ≡ length roster.now.hospitals) }
{
    match Tree::build(alloc, roster.hospitals().len(), &[]) {
        Ok(tree) => Some(tree),
        Err(_) => None,
    }
}

// The board of a roster, its ties by rank.
pub fn board_of(alloc: Global, roster: &Roster) -> Option<Board>
    ensures { IfSome result (λ board. board.ranks ≡ roster.now.ranks) }
{
    let Some(tree) = flat_tree(alloc, roster) else {
        return None;
    };
    let Some(steps) = flat_steps(alloc, roster) else {
        return None;
    };
    match Board::build(alloc, roster.ranks(), tree, steps, TieRule::ByRank) {
        Ok(board) => Some(board),
        Err(_) => None,
    }
}

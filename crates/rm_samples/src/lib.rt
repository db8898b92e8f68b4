//! Samples for the tests of the crates above: a board that is worked out by hand, and questions on sets of contracts.
#![tactic(auto)]

ghost use Rattle.std.specs.Prelude.{◌≡◌, ◌<◌, ◌≤◌, [], All, IfOk, IsTrue, length};
ghost use Rattle.std.specs.List.{sum_by};
ghost use Rattle.rm_sets.specs.Sets.{IsSetBelow, IsWithin};
ghost use Rattle.rm_market.specs.Steps.{AreSteps};
ghost use Rattle.rm_market.specs.Tree.{sets_of_tree};
ghost use Rattle.rm_valuation.specs.Counts.{IsMarketBoard};

use rm_board::{Board, TieRule};
use rm_choice::NoMemory;
use rm_laminar::Tree;
use rm_market::Run;
use rm_ranks::{Lists, ListsBuilder};
use rm_steps::Steps;
use std::alloc::{AllocError, Global};

// The rank lists of one hospital, which ranks the first doctor above the second.
fn one_rank(alloc: Global) -> Result<Lists, NoMemory>
    ensures few { IfOk result (λ ranks. sum_by length ranks ≤ 10) }
    ensures one { IfOk result (λ ranks. length ranks ≡ 1) }
    ensures below { IfOk result (λ ranks. All (All (λ x. x < 2)) ranks) }
{
    let mut builder = ListsBuilder::new(alloc, 1, 2, 10)?;
    if builder.row(0, 1).is_err() || builder.push(0).is_err() || builder.push(1).is_err() {
        return Err(AllocError);
    }
    builder.finish(alloc)
}

// The tree of one hospital.
fn one_node(alloc: Global) -> Result<Tree, NoMemory>
    ensures hospitals { IfOk result (λ t. t.hospitals ≡ 1) }
    ensures groups { IfOk result (λ t. t.groups ≡ []) }
    ensures nodes { IfOk result (λ t. length (sets_of_tree t) ≡ 1) }
{
    let groups = Vec::new(alloc);
    let Ok(tree) = Tree::build(alloc, 1, &groups) else {
        return Err(AllocError);
    };
    if tree.nodes() != 1 {
        return Err(AllocError);
    }
    Ok(tree)
}

// Two places, of which the second lowers the worth.
fn two_steps(alloc: Global) -> Result<Vec<Steps>, NoMemory>
    ensures one { IfOk result (λ v. length v.items ≡ 1) }
    ensures steps { IfOk result (λ v. All AreSteps v.items) }
{
    let run = Run {
        value: 0,
        fall: 1,
        count: 2,
    };
    let Ok(steps) = Steps::check(alloc, &[run]) else {
        return Err(AllocError);
    };
    let mut nodes = Vec::new(alloc);
    nodes.push(steps)?;
    Ok(nodes)
}

/// The board of one hospital with two places, the second of which lowers the worth. It ranks the first doctor above the second: so the contracts
/// 0 and 1 are theirs.
pub fn one_hospital(alloc: Global) -> Result<Board, NoMemory>
    ensures { IfOk result IsMarketBoard }
{
    let ranks = one_rank(alloc)?;
    let tree = one_node(alloc)?;
    let steps = two_steps(alloc)?;
    let hospitals = ranks.len();
    prove!(hospitals == 1);
    let Ok(board) = Board::build(alloc, &ranks, tree, steps, TieRule::ByRank) else {
        return Err(AllocError);
    };
    Ok(board)
}

/// Whether numbers are strictly ascending and below n: a set of contracts, of n in all.
pub fn is_set(n: u32, xs: &[u32]) -> bool
    ensures { IsTrue result → IsSetBelow n xs.now }
{
    for i in 0..xs.len() {
        if xs[i] >= n {
            return false;
        }
        if i > 0 && xs[i - 1] >= xs[i] {
            return false;
        }
    }
    true
}

/// Whether each of these numbers is one of those.
pub fn is_within(xs: &[u32], ys: &[u32]) -> bool
    ensures { IsTrue result → IsWithin xs.now ys.now }
{
    for i in 0..xs.len() {
        if !ys.contains(&xs[i]) {
            return false;
        }
    }
    true
}

// Offers to fast holders, on boards whose groups hold the first hospitals.

ghost use Rattle.std.specs.Prelude.{◌≡◌, ◌<◌, ◌≤◌, ℕ, None, All, IfOk, length};
ghost use Rattle.std.specs.List.{sum_by};
ghost use Rattle.rm_sets.specs.Sets.{IsSet, IsSetBelow};
ghost use Rattle.rm_market.specs.Steps.{AreSteps};
ghost use Rattle.rm_market.specs.Tree.{tree_fault};
ghost use Rattle.rm_valuation.specs.Counts.{IsMarketBoard};

use crate::FastHolder;
use rm_board::{Board, TieRule};
use rm_choice::{Holder, NoMemory, Outcome};
use rm_laminar::Tree;
use rm_market::Run;
use rm_ranks::{Lists, ListsBuilder};
use rm_steps::Steps;
use std::alloc::{AllocError, Global};
use std::test::Fail;

// The rank lists of hospitals that each rank two doctors, the first above the second.
fn two_ranked(alloc: Global, hospitals: u32) -> Result<Lists, NoMemory>
    requires { hospitals ≤ 10 }
    ensures few { IfOk result (λ ranks. sum_by length ranks ≤ 20) }
    ensures all { IfOk result (λ ranks. length ranks ≡ hospitals) }
    ensures below { IfOk result (λ ranks. All (All (λ x. x < 2)) ranks) }
{
    let mut builder = ListsBuilder::new(alloc, hospitals, 2, 20)?;
    for h in 0..hospitals {
        let Ok(()) = builder.row(h, 1) else {
            return Err(AllocError);
        };
        let Ok(()) = builder.push(0) else {
            return Err(AllocError);
        };
        let Ok(()) = builder.push(1) else {
            return Err(AllocError);
        };
    }
    builder.finish(alloc)
}

// The first hospitals.
fn first(alloc: Global, size: u32) -> Result<Vec<u32>, NoMemory>
    ensures { IfOk result (λ v. (n : ℕ) → size ≤ n → IsSetBelow n v.items) }
{
    let mut group = Vec::new(alloc);
    for h in 0..size {
        group.push(h)?;
    }
    Ok(group)
}

// The tree with groups of so many first hospitals. Also where there are more than 10 of anything, or a group is no group of
// these hospitals, the answer is the want of memory.
fn nested(alloc: Global, hospitals: u32, sizes: &[u32]) -> Result<Tree, NoMemory>
    ensures few { IfOk result (λ t. hospitals ≤ 10) }
    ensures hospitals { IfOk result (λ t. t.hospitals ≡ hospitals) }
    ensures sets { IfOk result (λ t. All IsSet t.groups) }
    ensures fault { IfOk result (λ t. tree_fault t.groups ≡ None) }
{
    if hospitals > 10 || sizes.len() > 10 {
        return Err(AllocError);
    }
    let mut groups = Vec::new(alloc);
    for i in 0..sizes.len() {
        if sizes[i] > hospitals {
            return Err(AllocError);
        }
        groups.push(first(alloc, sizes[i])?)?;
    }
    let Ok(tree) = Tree::build(alloc, hospitals, &groups) else {
        return Err(AllocError);
    };
    Ok(tree)
}

// The steps of nodes, one run for each.
fn steps_of(alloc: Global, runs: &[Run]) -> Result<Vec<Steps>, NoMemory>
    ensures all { IfOk result (λ v. length v.items ≡ length runs.now) }
    ensures steps { IfOk result (λ v. All AreSteps v.items) }
{
    let mut nodes = Vec::new(alloc);
    for i in 0..runs.len() {
        let Ok(steps) = Steps::check(alloc, &[runs[i]]) else {
            return Err(AllocError);
        };
        nodes.push(steps)?;
    }
    Ok(nodes)
}

// Hospitals, groups of so many first hospitals, a run of steps for each node, and offers with what they do.
#[derive(Clone, Copy)]
struct Row {
    hospitals: u32,
    sizes: &'static [u32],
    runs: &'static [Run],
    offers: &'static [(u32, Outcome)],
}

// The board of a row.
fn board_of_row(alloc: Global, row: &Row) -> Result<Board, NoMemory>
    ensures { IfOk result IsMarketBoard }
{
    let tree = nested(alloc, row.hospitals, row.sizes)?;
    let ranks = two_ranked(alloc, row.hospitals)?;
    let steps = steps_of(alloc, row.runs)?;
    if steps.len() != tree.nodes() as usize {
        return Err(AllocError);
    }
    let hospitals = ranks.len();
    prove!(hospitals <= 10);
    let Ok(board) = Board::build(alloc, &ranks, tree, steps, TieRule::ByRank) else {
        return Err(AllocError);
    };
    Ok(board)
}

// What an offer of x does. None where there is no such contract, or it is held.
fn offered(holder: &mut FastHolder<'_>, x: u32) -> Option<Outcome> {
    if x >= holder.contracts() || holder.holds(x) {
        return None;
    }
    Some(holder.offer(x))
}

// Hospital h has the contracts 2h and 2h + 1.
const ROWS: [Row; 2] = [
    Row {
        hospitals: 2,
        sizes: &[2],
        runs: &[
            Run {
                value: 3,
                fall: 0,
                count: 1,
            },
            Run {
                value: 5,
                fall: 0,
                count: 1,
            },
            Run {
                value: 1,
                fall: 5,
                count: 2,
            },
        ],
        offers: &[
            (0, Outcome::Kept),
            (3, Outcome::Swapped(0)),
            (1, Outcome::Refused),
        ],
    },
    Row {
        hospitals: 2,
        sizes: &[2],
        runs: &[
            Run {
                value: -1,
                fall: 0,
                count: 2,
            },
            Run {
                value: -2,
                fall: 0,
                count: 1,
            },
            Run {
                value: 10,
                fall: 0,
                count: 1,
            },
        ],
        offers: &[
            (2, Outcome::Kept),
            (1, Outcome::Swapped(2)),
            (0, Outcome::Swapped(1)),
        ],
    },
];

// Whether the offers of a row do what the row says.
fn answers(alloc: Global, row: &Row) -> Result<bool, NoMemory> {
    let board = board_of_row(alloc, row)?;
    let mut holder = FastHolder::open(alloc, &board)?;
    for i in 0..row.offers.len() {
        let (x, outcome) = row.offers[i];
        if offered(&mut holder, x) != Some(outcome) {
            return Ok(false);
        }
    }
    Ok(true)
}

#[test]
fn answers_offers(rt: HostRuntime) -> Result<(), Fail> {
    for row in &ROWS {
        assert!(rt; answers(rt.alloc(), row)?);
    }
    Ok(())
}

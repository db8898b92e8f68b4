// Worth, gains and losses at one hospital and at the groups around it.

ghost use Rattle.std.specs.Prelude.{◌≡◌, ◌<◌, ◌≤◌, All, IfOk, IfSome, length};
ghost use Rattle.std.specs.List.{sum_by};
ghost use Rattle.rm_sets.specs.Sets.{IsSetBelow};

use super::*;
use rm_board::TieRule;
use rm_laminar::Tree;
use rm_market::Run;
use rm_ranks::{Lists, ListsBuilder};
use rm_steps::Steps;
use std::alloc::{AllocError, Global};
use std::test::Fail;

// The hospital ranks the second doctor above the first, so contract 0 is the second doctor's.
fn one_rank(alloc: Global) -> Result<Lists, AllocError>
    ensures few { IfOk result (λ ranks. sum_by length ranks ≤ 10) }
    ensures one { IfOk result (λ ranks. length ranks ≡ 1) }
{
    let mut builder = ListsBuilder::new(alloc, 1, 2, 10)?;
    let Ok(()) = builder.row(0, 1) else {
        return Err(AllocError);
    };
    let Ok(()) = builder.push(1) else {
        return Err(AllocError);
    };
    let Ok(()) = builder.push(0) else {
        return Err(AllocError);
    };
    builder.finish(alloc)
}

// A group of the one hospital.
fn group(alloc: Global) -> Result<Vec<u32>, AllocError>
    ensures { IfOk result (λ hospitals. IsSetBelow 1 hospitals.items) }
{
    vec![in alloc; 0; 1]
}

// So many groups of the one hospital.
fn groups(alloc: Global, count: usize) -> Result<Vec<Vec<u32>>, AllocError>
    ensures { IfOk result (λ groups. All (λ g. IsSetBelow 1 g.items) groups.items) }
{
    let mut groups = Vec::new(alloc);
    for _ in 0..count {
        let set = group(alloc)?;
        let Ok(()) = groups.push(set) else {
            return Err(AllocError);
        };
    }
    Ok(groups)
}

// The tree of the one hospital and of so many groups around it, at most 9.
fn nested_tree(alloc: Global, count: usize) -> Option<Tree>
    ensures { IfSome result (λ tree. tree.hospitals ≡ 1) }
{
    let Ok(groups) = groups(alloc, count) else {
        return None;
    };
    if groups.len() > 9 {
        return None;
    }
    match Tree::build(alloc, 1, &groups) {
        Ok(tree) => Some(tree),
        Err(_) => None,
    }
}

// The steps of each node, told by runs.
fn steps_of(alloc: Global, nodes: &[Run]) -> Option<Vec<Steps>> {
    let mut steps = Vec::new(alloc);
    for run in nodes {
        let checked = match run.count {
            0 => Steps::check(alloc, &[]),
            _ => Steps::check(alloc, &[*run]),
        };
        let Ok(own) = checked else {
            return None;
        };
        let Ok(()) = steps.push(own) else {
            return None;
        };
    }
    Some(steps)
}

// The board of one hospital and of the groups around it, with one run of steps for each node.
fn one_hospital(alloc: Global, nodes: &[Run]) -> Option<Board> {
    let Ok(ranks) = one_rank(alloc) else {
        return None;
    };
    let Some(tree) = nested_tree(alloc, nodes.len().saturating_sub(1)) else {
        return None;
    };
    let Some(steps) = steps_of(alloc, nodes) else {
        return None;
    };
    if steps.len() != tree.nodes() as usize {
        return None;
    }
    match Board::build(alloc, &ranks, tree, steps, TieRule::ByRank) {
        Ok(board) => Some(board),
        Err(_) => None,
    }
}

// The counts of the set of the first few contracts of a board.
fn counts_of(alloc: Global, board: &Board, held: u32) -> Result<Vec<u32>, AllocError>
    ensures { IfOk result (λ counts. length counts.items ≡ length board.now.nodes) }
{
    let mut counts = vec![in alloc; 7; board.tree().nodes() as usize]?;
    count_none(&mut counts);
    for x in 0..held.min(board.contracts()) {
        count_in(board, &mut counts, x);
    }
    Ok(counts)
}

// One run of steps for each node, hospital first; how many contracts are held, from the first; and the numbers that are wanted.
#[derive(Clone, Copy)]
struct Row {
    name: &'static str,
    nodes: &'static [Run],
    held: u32,
    worth: i128,
    gain: Option<(u32, Option<i64>)>,
    loss: Option<(u32, i64)>,
}

// Two seats, of which the second lowers the worth.
const SECOND_LOWERS: Run = Run {
    value: 0,
    fall: 1,
    count: 2,
};

const NO_SEAT: Run = Run {
    value: 0,
    fall: 0,
    count: 0,
};

const ONE_SEAT: Run = Run {
    value: 0,
    fall: 0,
    count: 1,
};

const TWO_SEATS: Run = Run {
    value: 0,
    fall: 0,
    count: 2,
};

// A hospital with the steps 3 and 2, a group with 5 and 1, and around it one with 0 and -4.
const NESTED: [Run; 3] = [
    Run {
        value: 3,
        fall: 1,
        count: 2,
    },
    Run {
        value: 5,
        fall: 4,
        count: 2,
    },
    Run {
        value: 0,
        fall: 4,
        count: 2,
    },
];

const ROWS: [Row; 8] = [
    Row {
        name: "one of two",
        nodes: &[SECOND_LOWERS],
        held: 1,
        worth: 0,
        gain: Some((1, Some(-1))),
        loss: Some((0, 0)),
    },
    Row {
        name: "two of two",
        nodes: &[SECOND_LOWERS],
        held: 2,
        worth: -1,
        gain: None,
        loss: Some((0, -1)),
    },
    Row {
        name: "a full hospital",
        nodes: &[ONE_SEAT],
        held: 1,
        worth: 0,
        gain: Some((1, None)),
        loss: Some((0, 0)),
    },
    Row {
        name: "a group of cap 0",
        nodes: &[ONE_SEAT, NO_SEAT],
        held: 0,
        worth: 0,
        gain: Some((0, None)),
        loss: None,
    },
    Row {
        name: "a full group between",
        nodes: &[TWO_SEATS, ONE_SEAT, TWO_SEATS],
        held: 1,
        worth: 0,
        gain: Some((1, None)),
        loss: Some((0, 0)),
    },
    Row {
        name: "none in nested groups",
        nodes: &NESTED,
        held: 0,
        worth: 0,
        gain: Some((1, Some(8))),
        loss: None,
    },
    Row {
        name: "one in nested groups",
        nodes: &NESTED,
        held: 1,
        worth: 8,
        gain: Some((1, Some(-1))),
        loss: Some((0, 8)),
    },
    Row {
        name: "two in nested groups",
        nodes: &NESTED,
        held: 2,
        worth: 7,
        gain: None,
        loss: Some((1, -1)),
    },
];

// Whether the gain of a contract is as wanted.
fn gains(board: &Board, counts: &[u32], wanted: Option<(u32, Option<i64>)>) -> bool
    requires { length counts.now ≡ length board.now.nodes }
{
    match wanted {
        None => true,
        Some((x, change)) => x < board.contracts() && gain(board, counts, x) == change,
    }
}

// Whether the loss of a contract is as wanted.
fn loses(board: &Board, counts: &[u32], wanted: Option<(u32, i64)>) -> bool
    requires { length counts.now ≡ length board.now.nodes }
{
    match wanted {
        None => true,
        Some((z, change)) => z < board.contracts() && loss(board, counts, z) == change,
    }
}

// Whether the numbers of a row are as wanted.
fn holds(alloc: Global, row: &Row) -> Result<bool, AllocError> {
    let Some(board) = one_hospital(alloc, row.nodes) else {
        return Ok(false);
    };
    let counts = counts_of(alloc, &board, row.held)?;
    if worth(&board, &counts) != row.worth || !gains(&board, &counts, row.gain) {
        return Ok(false);
    }
    Ok(loses(&board, &counts, row.loss))
}

#[test]
fn numbers_of_sets(rt: HostRuntime) -> Result<(), Fail> {
    for row in &ROWS {
        let name = row.name;
        assert!(rt; holds(rt.alloc(), row)?, "{name}");
    }
    Ok(())
}

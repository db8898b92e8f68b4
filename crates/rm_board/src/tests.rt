// Small boards: their contracts, the faults of listed orders, and the keys by which contracts stand in tie order.

ghost use Rattle.std.specs.Prelude.{◌≡◌, ◌<◌, ◌≤◌, length, All, IfOk};
ghost use Rattle.std.specs.List.{sum_by};
ghost use Rattle.rm_market.specs.Tree.{sets_of_tree};
ghost use Rattle.rm_board.specs.ListedElements.{Names};
ghost use Rattle.rm_board.specs.Rules.{AreKnown};

use super::*;
use rm_laminar::Tree;
use rm_market::ListedPair;
use rm_ranks::{Lists, ListsBuilder};
use rm_steps::Steps;
use std::alloc::{AllocError, Global};
use std::test::Fail;

// The rank lists of one hospital, which ranks the first doctor above the second.
fn one_rank(alloc: Global) -> Result<Lists, NoMemory>
    ensures few { IfOk result (λ ranks. sum_by length ranks ≤ 10) }
    ensures one { IfOk result (λ ranks. length ranks ≡ 1) }
{
    let mut builder = ListsBuilder::new(alloc, 1, 2, 10)?;
    if builder.row(0, 1).is_err() || builder.push(0).is_err() || builder.push(1).is_err() {
        return Err(AllocError);
    }
    builder.finish(alloc)
}

// The fault of a listed order of the contracts of some doctors at the one hospital.
fn fault(alloc: Global, contracts: &Contracts, doctors: &[u32]) -> Option<BoardFault>
    requires { length contracts.now ≡ 1 }
{
    let mut pairs = Vec::new(alloc);
    for i in 0..doctors.len() {
        let pair = ListedPair {
            doctor: Some(doctors[i]),
            hospital: Some(0),
        };
        if pairs.push(pair).is_err() {
            return Some(BoardFault::NoMemory);
        }
    }
    match tie_order(alloc, contracts, TieRule::Listed(&pairs)) {
        Ok(_) => None,
        Err(fault) => Some(fault),
    }
}

#[test]
fn numbers_contracts(rt: HostRuntime) -> Result<(), Fail> {
    let ranks = one_rank(rt.alloc())?;
    let contracts = Contracts::build(rt.alloc(), &ranks)?;
    assert_eq!(rt; contracts.owners(), [0, 1].as_slice());
    assert!(rt; contracts.find(1, 0) == Some(1));
    assert!(rt; contracts.find(2, 0) == None);
    Ok(())
}

#[test]
fn finds_faults_of_listed_orders(rt: HostRuntime) -> Result<(), Fail> {
    let ranks = one_rank(rt.alloc())?;
    let contracts = Contracts::build(rt.alloc(), &ranks)?;
    assert!(rt; fault(rt.alloc(), &contracts, &[0, 1]) == None);
    assert!(rt; fault(rt.alloc(), &contracts, &[1, 0]) == Some(BoardFault::AgainstRank(2, 1)));
    assert!(rt; fault(rt.alloc(), &contracts, &[0]) == Some(BoardFault::Missing(1, 0)));
    assert!(rt; fault(rt.alloc(), &contracts, &[0, 0]) == Some(BoardFault::Repeated(2, 1)));
    assert!(rt; fault(rt.alloc(), &contracts, &[2]) == Some(BoardFault::Unknown(1)));
    Ok(())
}

// Writes the rank list of one of two hospitals.
fn push_rank(builder: &mut ListsBuilder, hospital: u32, doctors: &[u32]) -> Result<(), NoMemory>
    requires hospital { hospital < 2 }
    requires two { length builder.old.lists ≡ 2 }
    requires items { builder.old.items ≡ 3 }
    requires limit { builder.old.limit ≡ 10 }
    ensures two { length builder.new.lists ≡ 2 }
    ensures items { builder.new.items ≡ 3 }
    ensures limit { builder.new.limit ≡ 10 }
{
    let Ok(()) = builder.row(hospital, 1) else {
        return Err(AllocError);
    };
    for i in 0..doctors.len() {
        let doctor = doctors[i];
        if doctor >= 3 {
            return Err(AllocError);
        }
        let Ok(()) = builder.push(doctor) else {
            return Err(AllocError);
        };
    }
    Ok(())
}

// The rank lists of two hospitals. The first ranks three doctors, and the second one of them.
fn two_ranks(alloc: Global) -> Result<Lists, NoMemory>
    ensures few { IfOk result (λ ranks. sum_by length ranks ≤ 10) }
    ensures two { IfOk result (λ ranks. length ranks ≡ 2) }
{
    let mut builder = ListsBuilder::new(alloc, 2, 3, 10)?;
    push_rank(&mut builder, 0, &[0, 1, 2])?;
    push_rank(&mut builder, 1, &[1])?;
    builder.finish(alloc)
}

// The tree of two hospitals.
fn two_nodes(alloc: Global) -> Result<Tree, NoMemory>
    ensures hospitals { IfOk result (λ t. t.hospitals ≡ 2) }
    ensures nodes { IfOk result (λ t. length (sets_of_tree t) ≡ 2) }
{
    let groups = Vec::new(alloc);
    let Ok(tree) = Tree::build(alloc, 2, &groups) else {
        return Err(AllocError);
    };
    if tree.nodes() != 2 {
        return Err(AllocError);
    }
    Ok(tree)
}

// No steps for each of two nodes.
fn no_steps(alloc: Global) -> Result<Vec<Steps>, NoMemory>
    ensures { IfOk result (λ steps. length steps.items ≡ 2) }
{
    let mut steps = Vec::new(alloc);
    steps.push(Steps::flat(alloc, 0)?)?;
    steps.push(Steps::flat(alloc, 0)?)?;
    Ok(steps)
}

// The board of two hospitals.
fn two_hospitals(alloc: Global, ties: TieRule<'_>) -> Result<Board, NoMemory>
    requires { AreKnown 2 ties }
{
    let ranks = two_ranks(alloc)?;
    let tree = two_nodes(alloc)?;
    let steps = no_steps(alloc)?;
    let Ok(board) = Board::build(alloc, &ranks, tree, steps, ties) else {
        return Err(AllocError);
    };
    Ok(board)
}

// Whether the contracts have these keys, and of any two of them the keys and the places in tie order stand alike.
fn has_keys(board: &Board, keys: &[u32]) -> bool {
    let count = board.contracts();
    for x in 0..count {
        for y in 0..count {
            if (board.tie_key(x) < board.tie_key(y)) != (board.tie(x) < board.tie(y)) {
                return false;
            }
        }
        if keys.get(x as usize).copied() != Some(board.tie_key(x)) {
            return false;
        }
    }
    keys.len() == count as usize
}

// The element of a listed order that names a contract of the two hospitals.
fn pair(doctor: u32, hospital: u32) -> ListedPair
    requires { hospital < 2 }
    ensures { Names 2 result }
{
    ListedPair {
        doctor: Some(doctor),
        hospital: Some(hospital),
    }
}

// Whether the contracts of the two hospitals have these keys with a listed order.
fn has_listed_keys(alloc: Global, pairs: &[ListedPair], keys: &[u32]) -> Result<bool, NoMemory>
    requires { All (Names 2) pairs.now }
{
    let board = two_hospitals(alloc, TieRule::Listed(pairs))?;
    Ok(has_keys(&board, keys))
}

#[test]
fn keys_stand_in_tie_order(rt: HostRuntime) -> Result<(), Fail> {
    let board = two_hospitals(rt.alloc(), TieRule::ByRank)?;
    assert!(rt; has_keys(&board, &[0, 2, 4, 1]));
    let board = two_hospitals(rt.alloc(), TieRule::ByHospital)?;
    assert!(rt; has_keys(&board, &[0, 1, 2, 3]));
    let listed = [pair(1, 1), pair(0, 0), pair(1, 0), pair(2, 0)];
    assert!(rt; has_listed_keys(rt.alloc(), &listed, &[1, 2, 3, 0])?);
    let ranked = [pair(0, 0), pair(1, 1), pair(1, 0), pair(2, 0)];
    assert!(rt; has_listed_keys(rt.alloc(), &ranked, &[0, 2, 4, 1])?);
    Ok(())
}

// Small trees, and groups that make none.

ghost use Rattle.std.specs.Prelude.{◌≤◌, IsTrue, IfOk, All, length};
ghost use Rattle.rm_sets.specs.Sets.{IsSetBelow};

use super::*;
use std::test::Fail;

// Whether numbers are strictly ascending and below the number of hospitals.
fn is_set(hospitals: u32, group: &[u32]) -> bool
    ensures { IsTrue result → IsSetBelow hospitals group.now }
{
    for i in 0..group.len() {
        if group[i] >= hospitals {
            return false;
        }
        if i > 0 && group[i - 1] >= group[i] {
            return false;
        }
    }
    true
}

// A copy of a group that is a set.
fn copied(alloc: Global, hospitals: u32, group: &[u32]) -> Result<Vec<u32>, TreeFault>
    ensures { IfOk result (λ v. IsSetBelow hospitals v.items) }
{
    if !is_set(hospitals, group) {
        return Err(TreeFault::NoMemory);
    }
    let Ok(set) = group.to_vec(alloc) else {
        return Err(TreeFault::NoMemory);
    };
    Ok(set)
}

// The tree of groups, or their fault.
fn built(alloc: Global, hospitals: u32, groups: &[&[u32]]) -> Result<Tree, TreeFault> {
    let mut sets = Vec::new(alloc);
    for group in groups {
        if sets.len() >= 5_000 {
            return Err(TreeFault::NoMemory);
        }
        let set = copied(alloc, hospitals, group)?;
        let Ok(()) = sets.push(set) else {
            return Err(TreeFault::NoMemory);
        };
    }
    if hospitals > 10_000 {
        return Err(TreeFault::NoMemory);
    }
    Tree::build(alloc, hospitals, &sets)
}

// Whether groups have this fault.
fn refused(alloc: Global, hospitals: u32, groups: &[&[u32]], fault: TreeFault) -> bool {
    match built(alloc, hospitals, groups) {
        Ok(_) => false,
        Err(found) => found == fault,
    }
}

#[test]
fn refuses_groups(rt: HostRuntime) -> Result<(), Fail> {
    let alloc = rt.alloc();
    let crossing = TreeFault::Crossing {
        a: 0,
        b: 2,
        both: 1,
        only_a: 0,
        only_b: 2,
    };
    assert!(rt; refused(alloc, 3, &[&[0, 1], &[2], &[1, 2]], crossing));
    assert!(rt; refused(alloc, 1, &[&[]], TreeFault::Empty(0)));
    let mut same: Vec<&[u32]> = Vec::new(alloc);
    for _ in 0..31 {
        same.push(&[0])?;
    }
    assert!(rt; built(alloc, 1, &same).is_ok());
    same.push(&[0])?;
    assert!(rt; refused(alloc, 1, &same, TreeFault::Deep(31)));
    Ok(())
}

// Whether a tree is that of the groups of the test below.
fn is_as_wanted(tree: &Tree) -> bool {
    if tree.nodes() != 8 {
        return false;
    }
    if tree.hospitals() != 4 {
        return false;
    }
    tree.depth() == 4
        && tree.chain(0) == [0, 4, 5, 7].as_slice()
        && tree.members(5) == [0, 2, 1].as_slice()
        && tree.children(5) == [4, 1].as_slice()
        && tree.children(7) == [5].as_slice()
        && tree.parent(4) == Some(5)
        && tree.parent(7) == None
        && tree.root(1) == 7
        && tree.root(6) == 6
        && tree.span(7) == Span { first: 0, past: 6 }
        && tree.span(6) == Span { first: 6, past: 8 }
        && tree.span(4) == Span { first: 2, past: 5 }
        && tree.node_at(0) == 7
        && tree.node_at(5) == 1
}

#[test]
fn builds_trees(rt: HostRuntime) -> Result<(), Fail> {
    let groups: [&[u32]; 4] = [&[0, 2], &[0, 1, 2], &[3], &[0, 1, 2]];
    let built = match built(rt.alloc(), 4, &groups) {
        Ok(tree) => is_as_wanted(&tree),
        Err(_) => false,
    };
    assert!(rt; built);
    Ok(())
}

// A large tree.

ghost use Rattle.std.specs.Prelude.{◌≤◌, All, length, IfOk, OnOk};
ghost use Rattle.rm_sets.specs.Sets.{IsSetBelow};

use rm_laminar::{Tree, TreeFault};
use std::alloc::{AllocError, Global};

const HOSPITALS: u32 = 10_000;

const MOST_GROUPS: usize = 5_000;

// The sizes of the groups, so that there are 4,999 of them, at most 31 around one hospital.
const SIZES: [u32; 31] = [
    8, 8, 16, 16, 32, 32, 64, 64, 128, 128, 256, 256, 512, 512, 1024, 1024, 2048, 2048, 4096, 4096,
    8192, 8192, HOSPITALS, HOSPITALS, HOSPITALS, HOSPITALS, HOSPITALS, HOSPITALS, HOSPITALS,
    HOSPITALS, HOSPITALS,
];

// The hospitals from one to below another.
fn consecutive(alloc: Global, start: u32, end: u32) -> Result<Vec<u32>, AllocError>
    requires { end ≤ 10_000 }
    ensures { IfOk result (λ group. IsSetBelow 10_000 group.items) }
{
    let mut group = Vec::new(alloc);
    for h in start..end {
        group.push(h)?;
    }
    Ok(group)
}

// Adds groups of so many consecutive hospitals each, as long as there are hospitals, and groups are few.
fn add_groups(alloc: Global, groups: &mut Vec<Vec<u32>>, size: u32) -> Result<(), AllocError>
    requires { (length groups.old.items ≤ 5_000) × All (λ g. IsSetBelow 10_000 g.items) groups.old.items }
    ensures { OnOk result ((length groups.new.items ≤ 5_000) × All (λ g. IsSetBelow 10_000 g.items) groups.new.items) }
{
    let mut start = 0;
    for _ in 0..MOST_GROUPS {
        if groups.len() >= MOST_GROUPS {
            return Ok(());
        }
        if size > HOSPITALS - start {
            return Ok(());
        }
        let group = consecutive(alloc, start, start + size)?;
        let Ok(()) = groups.push(group) else {
            return Err(AllocError);
        };
        start += size;
    }
    Ok(())
}

// Nested groups.
fn nested_groups(alloc: Global) -> Result<Vec<Vec<u32>>, AllocError>
    ensures { IfOk result (λ groups. (length groups.items ≤ 5_000) × All (λ g. IsSetBelow 10_000 g.items) groups.items) }
{
    let mut groups = Vec::new(alloc);
    for size in SIZES {
        add_groups(alloc, &mut groups, size)?;
    }
    Ok(groups)
}

// The tree of nested groups.
pub fn nested_tree(alloc: Global) -> Result<Tree, TreeFault> {
    let Ok(groups) = nested_groups(alloc) else {
        return Err(TreeFault::NoMemory);
    };
    Tree::build(alloc, HOSPITALS, &groups)
}

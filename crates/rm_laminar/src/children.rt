// The nodes just inside each node.

ghost use Rattle.std.specs.Prelude.{◌≡◌, ◌+◌, ◌<◌, ◌≤◌, ℕ, List, [], length, get_or, slice_index, IfOk};
ghost use Rattle.rm_market.specs.Tree.{tree_sets, least};
ghost use Rattle.rm_laminar.specs.Chains.{chain_lists, AreChains, AreHospitalGroups};
ghost use Rattle.rm_laminar.specs.Tree.{AreChildren};

use crate::lists::Lists;
use std::alloc::{AllocError, Global};

/// The nodes just inside each node, by their least hospital: a node stands just inside the next one in the chain of its
/// least hospital.
pub fn children_of(
    alloc: Global,
    chains: &Lists,
    groups: &[Vec<u32>],
    firsts: &[u32],
) -> Result<Lists, AllocError>
    requires chains { AreChains (length chains.now) (chain_lists groups.now) chains.now }
    requires groups { AreHospitalGroups (length chains.now) (chain_lists groups.now) }
    requires nodes { length firsts.now ≡ length chains.now + length groups.now }
    requires firsts { (k : ℕ) → k < length firsts.now → slice_index firsts.now k ≡ least (tree_sets (length chains.now) (chain_lists groups.now)) k }
    ensures { IfOk result (λ l. AreChildren (record { hospitals = length chains.now; groups = chain_lists groups.now }) l) }
{
    let mut children = Lists::empty(alloc, (chains.len() + groups.len()) as u32)?;
    for h in 0..chains.len() {
        let chain = chains.list(h as u32);
        for i in 1..chain.len() {
            let node = chain[i - 1];
            if firsts[node as usize] == h as u32 {
                children.push(chain[i], node)?;
            }
        }
    }
    Ok(children)
}

//! The tree of a market's nodes, built from groups of hospitals.
#![tactic(auto)]

ghost use Rattle.std.specs.Prelude.{◌≡◌, ◌+◌, ◌<◌, ◌≤◌, ℕ, List, [], ◌∷◌, ◌++◌, length, map, get_or, slice_index, All, IfOk, fold, max, slice_get};
ghost use Rattle.rm_sets.specs.Sets.{IsSetBelow};
ghost use Rattle.rm_market.specs.Tree.{below, tree_fault, sets_of_tree, chain, children, members, parent, depth};
ghost use Rattle.rm_laminar.specs.Chains.{chain_lists, AreChains, AreHospitalGroups};
ghost use Rattle.rm_laminar.specs.Tree.{told, IsTreeKept, AreChildren, AreMembers, BuildsTree};
ghost use Rattle.rm_laminar.specs.Walk.{nodes_from, around, node_walk, root, IsSpan, IsWalk};

use crate::chains::chains_of;
use crate::children::children_of;
use crate::lists::Lists;
use crate::walk::{Walk, members_of, walk_of};
use rm_base::codes::{MOST_DEPTH, MOST_GROUPS, MOST_HOSPITALS};
use rm_lists::Lists as PackedLists;
pub use rm_market::TreeFault;
use std::alloc::{AllocError, Global};
use std::marker::Model;

mod chains;
mod children;
mod lists;
mod walk;

/// Positions in the walk of a tree's nodes, from the first on and before the one past them. They count from 0.
#[derive(Clone, Copy, Debug, PartialEq, Eq)]
pub struct Span {
    pub first: u32,
    pub past: u32,
}

/// The tree of hospitals and groups: of two nodes one contains the other, or they share no hospital. Node h is the
/// hospital h alone, and node `hospitals + g` is the group g. Of two equal sets the later declared one is outside.
#[derive(Drop)]
pub struct Tree {
    chains: PackedLists<u32>,
    firsts: Vec<u32>,
    children: PackedLists<u32>,
    members: PackedLists<u32>,
    walk: Walk,
}

impl Model for Tree {
    ghost use Rattle.std.specs.Prelude.{length};
    ghost use Rattle.rm_market.specs.Tree.{TreeOf};
    ghost use Rattle.rm_market.specs.Tree.{sets_of_tree};
    ghost use Rattle.rm_laminar.specs.Tree.{told, IsTreeKept, AreChildren, AreMembers};
    ghost use Rattle.rm_laminar.specs.Walk.{IsWalk};

    ghost Value = { TreeOf };

    ghost view = { λ t. told (length t.firsts.items) t.chains };

    ghost invariant = { λ t. IsTreeKept (told (length t.firsts.items) t.chains) t.chains t.firsts.items
        × AreChildren (told (length t.firsts.items) t.chains) t.children × AreMembers (told (length t.firsts.items) t.chains) t.members
        × IsWalk (sets_of_tree (told (length t.firsts.items) t.chains)) t.walk.nodes.items t.walk.places.items t.walk.pasts.items };
}

// The least hospital of each node.
fn firsts_of(alloc: Global, hospitals: u32, groups: &[Vec<u32>]) -> Result<Vec<u32>, AllocError>
    ensures { IfOk result (λ v. v.items ≡ below hospitals ++ map (λ g. slice_index g 0) (chain_lists groups.now)) }
{
    let mut firsts = Vec::new(alloc);
    for h in 0..hospitals {
        firsts.push(h)?;
    }
    for g in 0..groups.len() {
        let first = groups[g].first().copied().unwrap_or(0);
        firsts.push(first)?;
    }
    Ok(firsts)
}

// The nodes of a chain from a node on.
fn nodes_from(node: u32, chain: &[u32]) -> &[u32]
    ensures { result.now ≡ nodes_from node chain.now }
{
    for i in 0..chain.len() {
        if chain[i] == node {
            return &chain[i..];
        }
    }
    &[]
}

// The item at a place of a list.
fn item(list: &[u32], place: usize) -> Option<u32>
    ensures { result ≡ slice_get list.now place }
{
    list.get(place).copied()
}

// The greatest length of a chain.
fn depth_of(chains: &PackedLists<u32>) -> u32
    requires few { length chains.now ≤ MOST_HOSPITALS }
    requires shallow { (h : ℕ) → h < length chains.now → length (get_or chains.now h []) ≤ MOST_DEPTH }
    ensures { result ≡ fold max 0 (map (λ h. length (get_or chains.now h [])) (below (length chains.now))) }
{
    let mut depth = 0;
    for h in 0..chains.len() {
        depth = depth.max(chains.list(h).len() as u32);
    }
    depth
}

// The tree of these lists, which it keeps packed.
fn packed_tree(
    alloc: Global,
    chains: &Lists,
    firsts: Vec<u32>,
    children: &Lists,
    members: &Lists,
    walk: Walk,
) -> Result<Tree, AllocError>
    requires kept { IsTreeKept (told (length firsts.items) chains.now) chains.now firsts.items }
    requires children { AreChildren (told (length firsts.items) chains.now) children.now }
    requires members { AreMembers (told (length firsts.items) chains.now) members.now }
    requires walk { IsWalk (sets_of_tree (told (length firsts.items) chains.now)) walk.nodes.items walk.places.items walk.pasts.items }
    ensures { IfOk result (λ t. t ≡ told (length firsts.items) chains.now) }
{
    Ok(Tree {
        chains: chains.packed(alloc)?,
        firsts,
        children: children.packed(alloc)?,
        members: members.packed(alloc)?,
        walk,
    })
}

impl Tree {
    /// Builds the tree of at most 10,000 hospitals and at most 5,000 groups. The first group with a fault decides.
    ///
    /// `Empty(b)` comes exactly where group b has no member. Else `Crossing` comes exactly where an earlier group and
    /// group b share a hospital and each has one that the other lacks: a is the least such group, and the three hospitals
    /// are the least ones in both, in a alone and in b alone. Else `Deep(b)` comes exactly where some hospital of b lies
    /// in 32 of the groups 0 to b.
    pub fn build(alloc: Global, hospitals: u32, groups: &[Vec<u32>]) -> Result<Tree, TreeFault>
        requires few_hospitals { hospitals ≤ MOST_HOSPITALS }
        requires few_groups { length groups.now ≤ MOST_GROUPS }
        requires sets { All (λ g. IsSetBelow hospitals g.items) groups.now }
        ensures { BuildsTree (tree_fault (chain_lists groups.now)) (record { hospitals = hospitals; groups = chain_lists groups.now }) result }
    {
        let chains = chains_of(alloc, hospitals, groups)?;
        let Ok(firsts) = firsts_of(alloc, hospitals, groups) else {
            return Err(TreeFault::NoMemory);
        };
        let Ok(children) = children_of(alloc, &chains, groups, &firsts) else {
            return Err(TreeFault::NoMemory);
        };
        let Ok(walk) = walk_of(alloc, &chains, groups, &firsts) else {
            return Err(TreeFault::NoMemory);
        };
        let Ok(members) = members_of(alloc, &chains, groups, &walk.nodes) else {
            return Err(TreeFault::NoMemory);
        };
        let Ok(tree) = packed_tree(alloc, &chains, firsts, &children, &members, walk) else {
            return Err(TreeFault::NoMemory);
        };
        Ok(tree)
    }

    /// The number of nodes.
    pub fn nodes(&self) -> u32
        ensures { result ≡ length (sets_of_tree self.now) }
    {
        self.firsts.len() as u32
    }

    /// The number of hospitals.
    pub fn hospitals(&self) -> u32
        ensures { result ≡ self.now.hospitals }
    {
        self.chains.len()
    }

    /// The hospitals of a node, each once, in the order of the tree's walk, which visits roots, and the children of a
    /// node, by their least hospital.
    pub fn members(&self, node: u32) -> &[u32]
        requires { node < length (sets_of_tree self.now) }
        ensures { result.now ≡ members (sets_of_tree self.now) self.now.hospitals node }
    {
        self.members.list(node)
    }

    /// The nodes just inside a node, by their least hospital.
    pub fn children(&self, node: u32) -> &[u32]
        requires { node < length (sets_of_tree self.now) }
        ensures { result.now ≡ children (sets_of_tree self.now) node }
    {
        self.children.list(node)
    }

    /// The nodes that contain a hospital, innermost first.
    pub fn chain(&self, h: u32) -> &[u32]
        requires { h < self.now.hospitals }
        ensures { result.now ≡ chain (sets_of_tree self.now) h }
    {
        self.chains.list(h)
    }

    /// The node just outside a node. None exactly where no node is outside it.
    pub fn parent(&self, node: u32) -> Option<u32>
        requires { node < length (sets_of_tree self.now) }
        ensures { result ≡ parent (sets_of_tree self.now) node }
    {
        item(self.around(node), 1)
    }

    // A node and the nodes outside it, innermost first.
    fn around(&self, node: u32) -> &[u32]
        requires { node < length (sets_of_tree self.now) }
        ensures { result.now ≡ around (sets_of_tree self.now) node }
    {
        nodes_from(node, self.chains.list(self.firsts[node as usize]))
    }

    /// The positions in the walk of a node, as the first, and of all nodes inside it. The walk has each node once. In it
    /// stand the roots, and the children of a node after it, by their least hospital, each followed by all nodes inside it.
    pub fn span(&self, node: u32) -> Span
        requires { node < length (sets_of_tree self.now) }
        ensures { IsSpan (sets_of_tree self.now) node result }
    {
        Span {
            first: self.walk.places[node as usize],
            past: self.walk.pasts[node as usize],
        }
    }

    /// The node at a position of the walk. Positions count from 0 and are below the number of nodes.
    pub fn node_at(&self, position: u32) -> u32
        requires { position < length (sets_of_tree self.now) }
        ensures { result ≡ slice_index (node_walk (sets_of_tree self.now)) position }
    {
        self.walk.nodes[position as usize]
    }

    /// The outermost node that contains a node: itself where no node is outside it.
    pub fn root(&self, node: u32) -> u32
        requires { node < length (sets_of_tree self.now) }
        ensures { result ≡ root (sets_of_tree self.now) node }
    {
        let outward = self.around(node);
        outward[outward.len() - 1]
    }

    /// The greatest number of nodes that contain one hospital, 0 without hospitals.
    pub fn depth(&self) -> u32
        ensures { result ≡ depth (sets_of_tree self.now) self.now.hospitals }
    {
        depth_of(&self.chains)
    }
}

#[cfg(test)]
mod tests;

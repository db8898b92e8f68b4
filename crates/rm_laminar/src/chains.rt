// The chains of nodes that contain each hospital, for groups that are read one after another.

ghost use Rattle.std.specs.Prelude.{◌≡◌, ◌+◌, ◌<◌, ◌≤◌, ◌^◌, ◌==◌, ◌||◌, not, nat_lt, nat_le, Bool, true, ℕ, List, [], ◌∷◌, ◌++◌, length, map, get_or, slice_index, position, count_by, take, Some, None, OnOk, IfOk, IfSome, All, if◌then◌else◌};
ghost use Rattle.std.specs.List.{list_any, prefix_len};
ghost use Rattle.rm_sets.specs.Sets.{has, IsSet, IsSetBelow, common, minus};
ghost use Rattle.rm_base.specs.Checks.{first_of};
ghost use Rattle.rm_market.specs.Board.{crosses};
ghost use Rattle.rm_market.specs.Tree.{put, tree_sets, set_of, crossing, group_checks, tree_fault};
ghost use Rattle.rm_laminar.specs.Chains.{chain_lists, AreChains, AreHospitalGroups, AreChanged, is_larger, PassesChains, HasChains};

use crate::lists::Lists;
use rm_base::codes::{MOST_DEPTH, MOST_GROUPS};
use rm_market::TreeFault;
use std::alloc::{AllocError, Global};

// Counts each group of a chain.
fn count_chain(shared: &mut [u32], hospitals: u32, chain: &[u32])
    requires nodes { All (λ k. k < hospitals + length shared.old) chain.now }
    requires room { (a : ℕ) → slice_index shared.old a + length chain.now < 2 ^ 32 }
    ensures { (a : ℕ) → a < length shared.old → slice_index shared.new a ≡ slice_index shared.old a + count_by (λ k. k == hospitals + a) chain.now }
{
    for i in 0..chain.len() {
        let node = chain[i];
        if node >= hospitals {
            shared[(node - hospitals) as usize] += 1;
        }
    }
}

// Counts, for each earlier group, the members of a group that it has.
fn count_shared(shared: &mut [u32], chains: &Lists, earlier: &[Vec<u32>], group: &[u32])
    requires chains { AreChains (length chains.now) (chain_lists earlier.now) chains.now }
    requires groups { AreHospitalGroups (length chains.now) (chain_lists earlier.now) }
    requires group { IsSetBelow (length chains.now) group.now }
    requires len { length shared.old ≡ length earlier.now }
    requires none { (a : ℕ) → a < length earlier.now → slice_index shared.old a ≡ 0 }
    ensures { (a : ℕ) → a < length earlier.now → slice_index shared.new a ≡ count_by (λ h. has h (get_or (chain_lists earlier.now) a [])) group.now }
{
    let hospitals = chains.len() as u32;
    for i in 0..group.len() {
        count_chain(shared, hospitals, chains.list(group[i]));
    }
}

// How many members of a group each earlier group has.
fn shared_with(
    alloc: Global,
    chains: &Lists,
    earlier: &[Vec<u32>],
    group: &[u32],
) -> Result<Vec<u32>, AllocError>
    requires chains { AreChains (length chains.now) (chain_lists earlier.now) chains.now }
    requires groups { AreHospitalGroups (length chains.now) (chain_lists earlier.now) }
    requires group { IsSetBelow (length chains.now) group.now }
    ensures len { IfOk result (λ v. length v.items ≡ length earlier.now) }
    ensures counts { IfOk result (λ v. (a : ℕ) → a < length earlier.now
        → slice_index v.items a ≡ count_by (λ h. has h (get_or (chain_lists earlier.now) a [])) group.now) }
{
    let mut shared = vec![in alloc; 0; earlier.len()]?;
    count_shared(&mut shared, chains, earlier, group);
    Ok(shared)
}

// Whether two sets cross, by the number of members that they share.
fn is_crossing(shared: u32, a: &[u32], b: &[u32]) -> bool
    requires sets { IsSet a.now × IsSet b.now }
    requires shared { shared ≡ count_by (λ h. has h a.now) b.now }
    ensures { result ≡ crosses a.now b.now }
{
    if shared == 0 {
        return false;
    }
    if shared as usize >= a.len() {
        return false;
    }
    (shared as usize) < b.len()
}

// The first earlier group that crosses a group.
fn first_crossing(shared: &[u32], earlier: &[Vec<u32>], group: &[u32]) -> Option<u32>
    requires few { length earlier.now ≤ MOST_GROUPS }
    requires len { length shared.now ≡ length earlier.now }
    requires sets { (a : ℕ) → a < length earlier.now → IsSet (get_or (chain_lists earlier.now) a []) }
    requires group { IsSet group.now }
    requires counts { (a : ℕ) → a < length earlier.now → slice_index shared.now a ≡ count_by (λ h. has h (get_or (chain_lists earlier.now) a [])) group.now }
    ensures first { result ≡ position (λ a. crosses a group.now) (chain_lists earlier.now) }
    ensures within { IfSome result (λ a. a < length earlier.now) }
{
    for a in 0..earlier.len() {
        if is_crossing(shared[a], &earlier[a], group) {
            return Some(a as u32);
        }
    }
    None
}

// Whether a number is in a set.
fn is_in(x: u32, set: &[u32]) -> bool
    ensures { result ≡ has x set.now }
{
    set.contains(&x)
}

// The first member of a set that is in another one too, or 0.
fn first_shared(a: &[u32], b: &[u32]) -> u32
    ensures { result ≡ slice_index (common a.now b.now) 0 }
{
    for i in 0..a.len() {
        if is_in(a[i], b) {
            return a[i];
        }
    }
    0
}

// The first member of a set that isn't in another one, or 0.
fn first_alone(a: &[u32], b: &[u32]) -> u32
    ensures { result ≡ slice_index (minus a.now b.now) 0 }
{
    for i in 0..a.len() {
        if !is_in(a[i], b) {
            return a[i];
        }
    }
    0
}

// Two groups that cross, with the least hospitals that show it.
fn crossing_of(a: u32, first: &[u32], b: u32, second: &[u32]) -> TreeFault
    ensures { result ≡ crossing a first.now b second.now }
{
    TreeFault::Crossing {
        a,
        b,
        both: first_shared(first, second),
        only_a: first_alone(first, second),
        only_b: first_alone(second, first),
    }
}

// Whether a hospital of a group is in as many nodes as one may be in.
fn is_deep(chains: &Lists, group: &[u32]) -> bool
    requires { (h : ℕ) → has h group.now ≡ true → h < length chains.now }
    ensures { result ≡ list_any (λ h. nat_le MOST_DEPTH (length (get_or chains.now h []))) group.now }
{
    for i in 0..group.len() {
        if chains.list(group[i]).len() >= MOST_DEPTH as usize {
            return true;
        }
    }
    false
}

// Checks a group after the groups before it.
fn check_group(
    alloc: Global,
    chains: &Lists,
    earlier: &[Vec<u32>],
    group: &[u32],
) -> Result<(), TreeFault>
    requires chains { AreChains (length chains.now) (chain_lists earlier.now) chains.now }
    requires groups { AreHospitalGroups (length chains.now) (chain_lists earlier.now) }
    requires group { IsSetBelow (length chains.now) group.now }
    ensures { PassesChains (first_of (group_checks (chain_lists earlier.now) group.now)) result }
{
    let b = earlier.len() as u32;
    if group.is_empty() {
        return Err(TreeFault::Empty(b));
    }
    let Ok(shared) = shared_with(alloc, chains, earlier, group) else {
        return Err(TreeFault::NoMemory);
    };
    if let Some(a) = first_crossing(&shared, earlier, group) {
        return Err(crossing_of(a, &earlier[a as usize], b, group));
    }
    if is_deep(chains, group) {
        return Err(TreeFault::Deep(b));
    }
    Ok(())
}

// The number of hospitals of a node.
fn size_of(hospitals: u32, groups: &[Vec<u32>], node: u32) -> usize
    requires { node < hospitals + length groups.now }
    ensures { result ≡ length (set_of (tree_sets hospitals (chain_lists groups.now)) node) }
{
    if node < hospitals {
        return 1;
    }
    groups[(node - hospitals) as usize].len()
}

// How many nodes of a chain come before the first that is larger than a group.
fn place_in(chain: &[u32], size: usize, hospitals: u32, groups: &[Vec<u32>]) -> usize
    requires { All (λ k. k < hospitals + length groups.now) chain.now }
    ensures place { result ≡ prefix_len (λ k. not (is_larger size (tree_sets hospitals (chain_lists groups.now)) hospitals k)) chain.now }
    ensures within { result ≤ length chain.now }
{
    for i in 0..chain.len() {
        if size_of(hospitals, groups, chain[i]) > size {
            return i;
        }
    }
    chain.len()
}

// Puts a group into the chains of its hospitals.
fn insert_group(chains: &mut Lists, earlier: &[Vec<u32>], group: &[u32]) -> Result<(), AllocError>
    requires chains { AreChains (length chains.old) (chain_lists earlier.now) chains.old }
    requires groups { AreHospitalGroups (length chains.old) (chain_lists earlier.now) }
    requires group { IsSetBelow (length chains.old) group.now }
    ensures { OnOk result (AreChanged (put (is_larger (length group.now) (tree_sets (length chains.old) (chain_lists earlier.now)))
        (length chains.old + length earlier.now)) chains.old chains.new group.now) }
{
    let hospitals = chains.len() as u32;
    let node = hospitals + earlier.len() as u32;
    for i in 0..group.len() {
        let place = place_in(chains.list(group[i]), group.len(), hospitals, earlier);
        chains.insert(group[i], place, node)?;
    }
    Ok(())
}

// Each hospital's own node.
fn own_chains(alloc: Global, hospitals: u32) -> Result<Lists, AllocError>
    ensures len { IfOk result (λ l. length l ≡ hospitals) }
    ensures own { IfOk result (λ l. (h : ℕ) → h < hospitals → get_or l h [] ≡ h ∷ []) }
{
    let mut chains = Lists::empty(alloc, hospitals)?;
    for h in 0..hospitals {
        chains.push(h, h)?;
    }
    Ok(chains)
}

/// The chain of nodes of each hospital, or the first fault of the groups.
pub fn chains_of(alloc: Global, hospitals: u32, groups: &[Vec<u32>]) -> Result<Lists, TreeFault>
    requires { AreHospitalGroups hospitals (chain_lists groups.now) }
    ensures { HasChains (tree_fault (chain_lists groups.now)) hospitals (chain_lists groups.now) result }
{
    let Ok(mut chains) = own_chains(alloc, hospitals) else {
        return Err(TreeFault::NoMemory);
    };
    for b in 0..groups.len() {
        let earlier = &groups[..b];
        let group: &[u32] = &groups[b];
        check_group(alloc, &chains, earlier, group)?;
        let Ok(()) = insert_group(&mut chains, earlier, group) else {
            return Err(TreeFault::NoMemory);
        };
    }
    Ok(chains)
}

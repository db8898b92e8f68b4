// A listed tie order, read element by element.

ghost use Rattle.std.specs.Prelude.{All, replicate, ◌≡◌, ◌+◌, ◌<◌, ◌≤◌, ◌==◌, slice_index, ℕ, List, [], ◌∷◌, ◌++◌, length, set, position, IfSome, IfOk, OnOk};
ghost use Rattle.rm_base.specs.Checks.{first_of, checks_of};
ghost use Rattle.rm_market.specs.declared.ListedPair.{ListedPair};
ghost use Rattle.rm_market.specs.Ties.{contract_of_pair, element_checks};
ghost use Rattle.rm_market.specs.Board.{pairs_of, hospital_of_number};
ghost use Rattle.rm_board.specs.ListedElements.{IsWide, IsListing, Names, ReadsElement, ReadsElements, ReadsOrder};

use crate::contracts::{Contracts, NoMemory};
use rm_market::{BoardFault, ListedPair};
use std::alloc::Global;

// The contracts named so far, in their order; of each contract the number of the element that names it; and of each hospital
// the number of the last element there, and one more than the greatest contract named there. Elements count from 1, and 0 is none.
#[derive(Drop)]
pub struct Listing {
    pub order: Vec<u32>,
    pub named: Vec<u32>,
    pub last: Vec<u32>,
    pub greatest: Vec<u32>,
}

// The contract that an element names.
fn contract_of(contracts: &Contracts, pair: &ListedPair) -> Option<u32>
    requires { Names (length contracts.now) pair.now }
    ensures contract { result ≡ contract_of_pair contracts.now pair.now }
    ensures below { IfSome result (λ x. (x < length (pairs_of contracts.now)) × (x < 4_000_000_000)) }
{
    let Some(d) = pair.doctor else {
        return None;
    };
    let Some(h) = pair.hospital else {
        return None;
    };
    contracts.find(d, h)
}

// Checks an element after those before it, and tells the contract that it names.
fn check_element(
    listing: &Listing,
    contracts: &Contracts,
    pair: &ListedPair,
) -> Result<u32, BoardFault>
    requires pair { Names (length contracts.now) pair.now }
    requires wide { IsWide contracts.now listing.now.named.items listing.now.last.items listing.now.greatest.items }
    requires few { length listing.now.order.items < 4_000_000_000 }
    ensures element { (before : List ListedPair)
        → IsListing contracts.now before listing.now.order.items listing.now.named.items listing.now.last.items listing.now.greatest.items
        → ReadsElement (first_of (element_checks contracts.now before pair.now)) (contract_of_pair contracts.now pair.now) result }
    ensures below { IfOk result (λ x. (x < length (pairs_of contracts.now)) × (x < 4_000_000_000)) }
    ensures new { IfOk result (λ x. slice_index listing.now.named.items x ≡ 0) }
    ensures above { IfOk result (λ x. slice_index listing.now.greatest.items (hospital_of_number contracts.now x) ≤ x + 1) }
{
    let number = listing.order.len() as u32 + 1;
    let Some(x) = contract_of(contracts, pair) else {
        return Err(BoardFault::Unknown(number));
    };
    let former = listing.named[x as usize];
    if former != 0 {
        return Err(BoardFault::Repeated(number, former));
    }
    let h = contracts.hospital(x) as usize;
    if listing.greatest[h] > x + 1 {
        return Err(BoardFault::AgainstRank(number, listing.last[h]));
    }
    Ok(x)
}

// Adds the contract that an element names.
fn add_element(listing: &mut Listing, contracts: &Contracts, x: u32) -> Result<(), NoMemory>
    requires x { (x < length (pairs_of contracts.now)) × (x < 4_000_000_000) }
    requires wide { IsWide contracts.now listing.old.named.items listing.old.last.items listing.old.greatest.items }
    requires few { length listing.old.order.items < 4_000_000_000 }
    ensures order { OnOk result (listing.new.order.items ≡ listing.old.order.items ++ x ∷ []) }
    ensures named { OnOk result (listing.new.named.items ≡ set listing.old.named.items x (length listing.old.order.items + 1)) }
    ensures last { OnOk result (listing.new.last.items ≡ set listing.old.last.items (hospital_of_number contracts.now x) (length listing.old.order.items + 1)) }
    ensures greatest { OnOk result (listing.new.greatest.items ≡ set listing.old.greatest.items (hospital_of_number contracts.now x) (x + 1)) }
{
    let number = listing.order.len() as u32 + 1;
    let h = contracts.hospital(x) as usize;
    listing.order.push(x)?;
    listing.named[x as usize] = number;
    listing.last[h] = number;
    listing.greatest[h] = x + 1;
    Ok(())
}

// The first number that is 0.
fn first_zero(numbers: &[u32]) -> Option<usize>
    ensures first { result ≡ position (λ n. n == 0) numbers.now }
    ensures within { IfSome result (λ x. x < length numbers.now) }
{
    numbers.iter().position(|n| *n == 0)
}

// No element.
fn no_element(alloc: Global, contracts: &Contracts) -> Result<Listing, NoMemory>
    ensures none { IfOk result (λ l. (l.order.items ≡ []) × (l.named.items ≡ replicate (length (pairs_of contracts.now)) 0)
        × (l.last.items ≡ replicate (length contracts.now) 0) × (l.greatest.items ≡ replicate (length contracts.now) 0)) }
    ensures few { length (pairs_of contracts.now) < 4_000_000_000 }
{
    let count = contracts.count() as usize;
    let hospitals = contracts.hospitals() as usize;
    Ok(Listing {
        order: Vec::new(alloc),
        named: vec![in alloc; 0; count]?,
        last: vec![in alloc; 0; hospitals]?,
        greatest: vec![in alloc; 0; hospitals]?,
    })
}

// Reads all elements.
fn read_elements(
    alloc: Global,
    contracts: &Contracts,
    pairs: &[ListedPair],
) -> Result<Listing, BoardFault>
    requires { All (Names (length contracts.now)) pairs.now }
    ensures elements { ReadsElements (first_of (checks_of (element_checks contracts.now) pairs.now)) contracts.now pairs.now result }
    ensures few { length (pairs_of contracts.now) < 4_000_000_000 }
{
    let Ok(mut listing) = no_element(alloc, contracts) else {
        return Err(BoardFault::NoMemory);
    };
    for i in 0..pairs.len() {
        let x = match check_element(&listing, contracts, &pairs[i]) {
            Ok(x) => x,
            Err(fault) => return Err(fault),
        };
        let Ok(()) = add_element(&mut listing, contracts, x) else {
            return Err(BoardFault::NoMemory);
        };
    }
    Ok(listing)
}

// The listed order, in which each contract stands once and in accord with its hospital's rank list.
pub fn listed_order(
    alloc: Global,
    contracts: &Contracts,
    pairs: &[ListedPair],
) -> Result<Vec<u32>, BoardFault>
    requires { All (Names (length contracts.now)) pairs.now }
    ensures { ReadsOrder contracts.now pairs.now result }
{
    let listing = read_elements(alloc, contracts, pairs)?;
    if let Some(x) = first_zero(&listing.named) {
        let x = x as u32;
        return Err(BoardFault::Missing(contracts.doctor(x), contracts.hospital(x)));
    }
    Ok(listing.order)
}

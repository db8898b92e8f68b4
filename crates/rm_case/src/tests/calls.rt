// What the public calls answer of one folder.

use super::folders::{case_of, shelf_of};
use crate::{Case, Choices, NodeName, Offers, fetch_own};
use rm_base::NoMemory;
use std::alloc::Global;
use std::test::Fail;

// Whether A is placed at H1, and B nowhere.
fn is_solved(alloc: Global, case: &Case) -> Result<bool, NoMemory> {
    let places = case.solve(alloc)?;
    Ok(places.len() == 2 && places.get(0) == Some(0) && places.get(1) == None)
}

// Whether the nodes are the two hospitals and the entry of their prefecture.
fn are_named(case: &Case) -> bool {
    case.board().tree().nodes() == 3
        && case.node_name(0) == NodeName::Hospital("H1")
        && case.node_name(2) == NodeName::Prefecture("P")
}

// Whether the offers of the file are contract 2 and then contract 1.
fn are_offered(alloc: Global, case: &Case) -> Result<bool, NoMemory> {
    let mut shelf = shelf_of(alloc)?;
    let Ok(table) = fetch_own(alloc, &mut shelf, "offers.csv") else {
        return Ok(false);
    };
    let Ok(offers) = Offers::read(alloc, case, &table) else {
        return Ok(false);
    };
    let ascending = offers.ascending(alloc)?;
    Ok(offers.contracts() == [2, 1].as_slice() && ascending.as_slice() == [1, 2].as_slice())
}

// Whether the list of the file is H2 alone, and with it in A's place he has none and B is placed at H1.
fn is_replaced(alloc: Global, case: &Case) -> Result<bool, NoMemory> {
    let mut shelf = shelf_of(alloc)?;
    let Ok(table) = fetch_own(alloc, &mut shelf, "list.csv") else {
        return Ok(false);
    };
    let Ok(choices) = Choices::read(alloc, case, &table) else {
        return Ok(false);
    };
    if case.roster().doctors().len() != 2 || choices.hospitals() != [1].as_slice() {
        return Ok(false);
    }
    let listed = case.listed_with(alloc, 0, choices.hospitals())?;
    let places = case.solve_with(alloc, &listed)?;
    Ok(places.len() == 2 && places.get(0) == None && places.get(1) == Some(0))
}

// Whether the one region has a cap of 1 and both hospitals in the order of their turns, each with one seat and no target.
fn is_region(alloc: Global, case: &Case) -> Result<bool, NoMemory> {
    let regions = case.regions(alloc)?;
    if regions.len() != 1 || regions[0].cap() != 1 || regions[0].seats().len() != 2 {
        return Ok(false);
    }
    let seats = regions[0].seats();
    let (first, second) = (seats[0], seats[1]);
    Ok(first.hospital == 0 && first.target == 0 && first.capacity == 1 && second.hospital == 1)
}

// Whether all of this holds of the folder's case.
fn all_hold(alloc: Global) -> Result<bool, NoMemory> {
    let Ok(case) = case_of(alloc) else {
        return Ok(false);
    };
    Ok(
        is_solved(alloc, &case)?
            && are_named(&case)
            && are_offered(alloc, &case)?
            && is_replaced(alloc, &case)?
            && is_region(alloc, &case)?,
    )
}

#[test]
fn answers(rt: HostRuntime) -> Result<(), Fail> {
    assert!(rt; all_hold(rt.alloc())?);
    Ok(())
}

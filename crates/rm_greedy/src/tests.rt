// The choice at one hospital whose second place lowers the worth.

use super::*;
use rm_choice::{Holder, Outcome};
use rm_samples::one_hospital;
use std::test::Fail;

// What an offer of x does. None where there is no such contract, or it is held.
fn offered(holder: &mut PlainHolder<'_>, x: u32) -> Option<Outcome> {
    if x >= holder.contracts() || holder.holds(x) {
        return None;
    }
    Some(holder.offer(x))
}

#[test]
fn takes_one_of_two(rt: HostRuntime) -> Result<(), Fail> {
    let board = one_hospital(rt.alloc())?;
    let mut holder: PlainHolder<'_> = ChoiceHolder::open(rt.alloc(), Greedy::new(&board))?;
    assert!(rt; offered(&mut holder, 1) == Some(Outcome::Kept));
    assert!(rt; offered(&mut holder, 0) == Some(Outcome::Swapped(1)));
    assert!(rt; offered(&mut holder, 1) == Some(Outcome::Refused));
    assert!(rt; offered(&mut holder, 2) == None);
    Ok(())
}

// A holder over the smallest choice.

use super::*;
use std::test::Fail;

#[test]
fn holds_what_is_offered(rt: HostRuntime) -> Result<(), Fail> {
    let mut holder = ChoiceHolder::open(rt.alloc(), OnePost::new(3))?;
    assert!(rt; holder.contracts() == 3 && !holder.holds(1));
    assert!(rt; holder.offer(2) == Outcome::Kept);
    assert!(rt; holder.offer(1) == Outcome::Swapped(2));
    assert!(rt; holder.holds(1) && !holder.holds(2) && !holder.holds(0));
    Ok(())
}

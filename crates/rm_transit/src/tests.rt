// Two doctors and one seat. Of the contracts 0 to 2, which are preferred in this order, 2 and then 0 are Ann's, and 1 is Bob's.

ghost use Rattle.std.specs.Prelude.{◌≡◌, [], ◌∷◌, IfOk, IsTrue, length, take};
ghost use Rattle.rm_market.specs.Stable.{Wishes};
ghost use Rattle.rm_transit.specs.Travel.{IsEventOf};

use super::*;
use rm_choice::{ChoiceHolder, Holder, OnePost, Outcome};
use rm_ranks::Lists;
use std::alloc::Global;
use std::test::Fail;

const ANN: u32 = 0;

const BOB: u32 = 1;

// An event, what it does, and where Ann and Bob stand after it.
#[derive(Clone, Copy)]
struct Row {
    event: Event,
    step: Step,
    ann: Mark,
    bob: Mark,
}

// Bob's offer arrives before Ann's, which was sent earlier.
static FIRST: [Row; 5] = [
    Row {
        event: Event::Send(ANN),
        step: Step::Sent(2),
        ann: Mark::Offered(2),
        bob: Mark::Free,
    },
    Row {
        event: Event::Send(BOB),
        step: Step::Sent(1),
        ann: Mark::Offered(2),
        bob: Mark::Offered(1),
    },
    Row {
        event: Event::Offer(1),
        step: Step::Arrived(Outcome::Kept),
        ann: Mark::Offered(2),
        bob: Mark::Held(1),
    },
    Row {
        event: Event::Offer(2),
        step: Step::Arrived(Outcome::Refused),
        ann: Mark::Refused(2),
        bob: Mark::Held(1),
    },
    Row {
        event: Event::Refusal(2),
        step: Step::Returned,
        ann: Mark::Free,
        bob: Mark::Held(1),
    },
];

// Ann offers her second choice, and Bob is put out.
static MORE: [Row; 3] = [
    Row {
        event: Event::Send(ANN),
        step: Step::Sent(0),
        ann: Mark::Offered(0),
        bob: Mark::Held(1),
    },
    Row {
        event: Event::Offer(0),
        step: Step::Arrived(Outcome::Swapped(1)),
        ann: Mark::Held(0),
        bob: Mark::Refused(1),
    },
    Row {
        event: Event::Refusal(1),
        step: Step::Returned,
        ann: Mark::Held(0),
        bob: Mark::Done,
    },
];

// What is repeated or never was sent.
static NOTHING: [Row; 4] = [
    Row {
        event: Event::Offer(0),
        step: Step::Nothing,
        ann: Mark::Held(0),
        bob: Mark::Done,
    },
    Row {
        event: Event::Refusal(1),
        step: Step::Nothing,
        ann: Mark::Held(0),
        bob: Mark::Done,
    },
    Row {
        event: Event::Send(ANN),
        step: Step::Nothing,
        ann: Mark::Held(0),
        bob: Mark::Done,
    },
    Row {
        event: Event::Send(BOB),
        step: Step::Nothing,
        ann: Mark::Held(0),
        bob: Mark::Done,
    },
];

// The choices of Ann and of Bob.
fn choices(alloc: Global) -> Result<Lists, NoMemory>
    ensures { IfOk result (λ lists. lists ≡ (2 ∷ 0 ∷ []) ∷ (1 ∷ []) ∷ []) }
{
    let mut lists = Lists::with_capacity(alloc, 2, 3)?;
    lists.push(&[2, 0])?;
    lists.push(&[1])?;
    Ok(lists)
}

// Nothing was sent yet.
fn new_transit<'a>(
    alloc: Global,
    listed: &'a Lists,
    owners: &'a [u32],
) -> Result<Transit<'a, ChoiceHolder<OnePost>>, NoMemory>
    requires listed { listed.now ≡ (2 ∷ 0 ∷ []) ∷ (1 ∷ []) ∷ [] }
    requires owners { owners.now ≡ 0 ∷ 1 ∷ 0 ∷ [] }
    ensures doctors { IfOk result (λ transit. length transit.wishes.listed ≡ 2) }
    ensures contracts { IfOk result (λ transit. length transit.wishes.owners ≡ 3) }
{
    let holder = ChoiceHolder::open(alloc, OnePost::new(3))?;
    Transit::open(alloc, listed, owners, holder)
}

// Whether there is such a doctor or contract.
fn is_known(event: Event) -> bool
    ensures { IsTrue result → (w : Wishes) → length w.listed ≡ 2 → length w.owners ≡ 3 → IsEventOf w event }
{
    match event {
        Event::Send(d) => d < 2,
        Event::Offer(x) => x < 3,
        Event::Refusal(x) => x < 3,
    }
}

// Whether the events do this, and leave Ann and Bob so.
fn rows_are<H: Holder>(transit: &mut Transit<'_, H>, rows: &[Row]) -> bool
    requires doctors { length transit.old.wishes.listed ≡ 2 }
    requires contracts { length transit.old.wishes.owners ≡ 3 }
    ensures wishes { transit.new.wishes ≡ transit.old.wishes }
{
    for row in rows {
        if !is_known(row.event) || transit.step(row.event) != row.step {
            return false;
        }
        if transit.mark(ANN) != row.ann || transit.mark(BOB) != row.bob {
            return false;
        }
    }
    true
}

#[test]
fn events_tell_what_they_did(rt: HostRuntime) -> Result<(), Fail> {
    let listed = choices(rt.alloc())?;
    let owners = [0, 1, 0];
    let mut transit = new_transit(rt.alloc(), &listed, &owners)?;
    assert!(rt; rows_are(&mut transit, &FIRST));
    assert!(rt; !transit.closed());
    assert!(rt; rows_are(&mut transit, &MORE));
    assert!(rt; transit.closed());
    Ok(())
}

#[test]
fn what_comes_again_does_nothing(rt: HostRuntime) -> Result<(), Fail> {
    let listed = choices(rt.alloc())?;
    let owners = [0, 1, 0];
    let mut transit = new_transit(rt.alloc(), &listed, &owners)?;
    assert!(rt; rows_are(&mut transit, &FIRST));
    assert!(rt; rows_are(&mut transit, &MORE));
    assert!(rt; rows_are(&mut transit, &NOTHING));
    assert!(rt; transit.closed());
    Ok(())
}

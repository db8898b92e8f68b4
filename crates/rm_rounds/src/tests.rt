// Two doctors at a hospital with one post. Of the contracts 0 to 3, which it prefers in this order, 1 and 2 are Ann's, 0 and 3 Bob's.

ghost use Rattle.std.specs.Prelude.{◌≡◌, [], ◌∷◌, IfOk, length, take};

use super::*;
use rm_choice::{ChoiceHolder, Holder, OnePost, Outcome};
use rm_ranks::Lists;
use std::alloc::Global;
use std::test::Fail;

const ANN: u32 = 0;

const BOB: u32 = 1;

// A turn, what it does, and whether the desk is closed after it.
#[derive(Clone, Copy)]
struct Event {
    doctor: u32,
    turn: Turn,
    closed: bool,
}

static EVENTS: [Event; 7] = [
    Event {
        doctor: BOB,
        turn: Turn::Moved {
            x: 3,
            outcome: Outcome::Kept,
        },
        closed: false,
    },
    Event {
        doctor: BOB,
        turn: Turn::Idle,
        closed: false,
    },
    Event {
        doctor: ANN,
        turn: Turn::Moved {
            x: 2,
            outcome: Outcome::Swapped(3),
        },
        closed: false,
    },
    Event {
        doctor: BOB,
        turn: Turn::Moved {
            x: 0,
            outcome: Outcome::Swapped(2),
        },
        closed: false,
    },
    Event {
        doctor: ANN,
        turn: Turn::Moved {
            x: 1,
            outcome: Outcome::Refused,
        },
        closed: true,
    },
    Event {
        doctor: ANN,
        turn: Turn::Done,
        closed: true,
    },
    Event {
        doctor: BOB,
        turn: Turn::Idle,
        closed: true,
    },
];

// The choices of Ann and of Bob.
fn choices(alloc: Global) -> Result<Lists, NoMemory>
    ensures { IfOk result (λ lists. lists ≡ (2 ∷ 1 ∷ []) ∷ (3 ∷ 0 ∷ []) ∷ []) }
{
    let mut lists = Lists::with_capacity(alloc, 2, 4)?;
    lists.push(&[2, 1])?;
    lists.push(&[3, 0])?;
    Ok(lists)
}

// A desk where nobody has offered yet.
fn new_desk<'a>(
    alloc: Global,
    listed: &'a Lists,
    owners: &'a [u32],
) -> Result<Desk<'a, ChoiceHolder<OnePost>>, NoMemory>
    requires listed { listed.now ≡ (2 ∷ 1 ∷ []) ∷ (3 ∷ 0 ∷ []) ∷ [] }
    requires owners { owners.now ≡ 1 ∷ 0 ∷ 0 ∷ 1 ∷ [] }
    ensures { IfOk result (λ desk. length desk.wishes.listed ≡ 2) }
{
    let holder = ChoiceHolder::open(alloc, OnePost::new(4))?;
    Desk::open(alloc, listed, owners, holder)
}

// Whether the events are what happens at a desk of two.
fn events_are<H: Holder>(desk: &mut Desk<'_, H>, events: &[Event]) -> bool
    requires doctors { length desk.old.wishes.listed ≡ 2 }
    ensures wishes { desk.new.wishes ≡ desk.old.wishes }
{
    for event in events {
        if event.doctor >= 2 || desk.offer(event.doctor) != event.turn {
            return false;
        }
        if desk.closed() != event.closed {
            return false;
        }
    }
    true
}

// Whether a desk of two is closed with Bob at contract 0 and Ann without a place.
fn is_ended<H: Holder>(desk: &Desk<'_, H>) -> bool
    requires doctors { length desk.now.wishes.listed ≡ 2 }
{
    desk.closed() && desk.place(ANN) == None && desk.place(BOB) == Some(0)
}

#[test]
fn turns_tell_what_they_did(rt: HostRuntime) -> Result<(), Fail> {
    let listed = choices(rt.alloc())?;
    let owners = [1, 0, 0, 1];
    let mut desk = new_desk(rt.alloc(), &listed, &owners)?;
    assert!(rt; !desk.closed());
    assert!(rt; events_are(&mut desk, &EVENTS));
    assert!(rt; is_ended(&desk));
    Ok(())
}

#[test]
fn closes(rt: HostRuntime) -> Result<(), Fail> {
    let listed = choices(rt.alloc())?;
    let owners = [1, 0, 0, 1];
    let mut desk = new_desk(rt.alloc(), &listed, &owners)?;
    desk.close_all();
    assert!(rt; is_ended(&desk));
    Ok(())
}

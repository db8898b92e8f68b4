// The turns of two doctors at a desk, by both holders.

ghost use Rattle.std.specs.Prelude.{◌≡◌, ◌<◌, [], length};
ghost use Rattle.rm_market.specs.Board.{contract_count, owners_of};
ghost use Rattle.rm_market.specs.Laws.{AreWishes};
ghost use Rattle.rm_rounds.specs.Desk.{wishes};
ghost use Rattle.rm_valuation.specs.Counts.{IsMarketBoard};

use super::folders::case_of;
use crate::Case;
use rm_base::NoMemory;
use rm_board::Board;
use rm_choice::{ChoiceHolder, Holder, Outcome};
use rm_exchange::FastHolder;
use rm_greedy::Greedy;
use rm_ranks::Lists;
use rm_rounds::{Desk, Turn};
use std::alloc::Global;
use std::test::Fail;

// A doctor whose turn it is, and what his turn does.
#[derive(Clone, Copy)]
struct Event {
    doctor: u32,
    turn: Turn,
}

const A: u32 = 0;

const B: u32 = 1;

// A's turn, in which he offers this contract.
const A_KEPT: Event = Event {
    doctor: A,
    turn: Turn::Moved {
        x: 2,
        outcome: Outcome::Kept,
    },
};

const A_REFUSED: Event = Event {
    doctor: A,
    turn: Turn::Moved {
        x: 2,
        outcome: Outcome::Refused,
    },
};

const A_IN_PLACE_OF_B: Event = Event {
    doctor: A,
    turn: Turn::Moved {
        x: 0,
        outcome: Outcome::Swapped(1),
    },
};

const A_IDLE: Event = Event {
    doctor: A,
    turn: Turn::Idle,
};

// B's turn.
const B_KEPT: Event = Event {
    doctor: B,
    turn: Turn::Moved {
        x: 1,
        outcome: Outcome::Kept,
    },
};

const B_IN_PLACE_OF_A: Event = Event {
    doctor: B,
    turn: Turn::Moved {
        x: 1,
        outcome: Outcome::Swapped(2),
    },
};

const B_DONE: Event = Event {
    doctor: B,
    turn: Turn::Done,
};

// The events at a desk that was just opened. After each row the desk is closed, A's place is contract 0, and B has none.
static ROWS: [&[Event]; 2] = [
    &[A_KEPT, B_IN_PLACE_OF_A, A_IN_PLACE_OF_B, B_DONE],
    &[B_KEPT, A_REFUSED, A_IN_PLACE_OF_B, A_IDLE],
];

// Whether the events at a desk of so many doctors do what is wanted.
fn turns_are<H: Holder>(desk: &mut Desk<'_, H>, doctors: u32, events: &[Event]) -> bool
    requires doctors { doctors ≡ length desk.old.wishes.listed }
    ensures wishes { desk.new.wishes ≡ desk.old.wishes }
{
    for event in events {
        if event.doctor >= doctors || desk.offer(event.doctor) != event.turn {
            return false;
        }
    }
    true
}

// Whether the desk is closed with A at contract 0 and B without a place.
fn is_ended<H: Holder>(desk: &Desk<'_, H>, doctors: u32) -> bool
    requires doctors { doctors ≡ length desk.now.wishes.listed }
{
    doctors == 2 && desk.closed() && desk.place(A) == Some(0) && desk.place(B) == None
}

// Whether the events at a desk over an empty holder do what is wanted, and then it is ended.
fn events_end<H: Holder + Drop>(
    alloc: Global,
    board: &Board,
    listed: &Lists,
    holder: H,
    events: &[Event],
) -> Result<bool, NoMemory>
    requires contracts { H.count holder ≡ contract_count board.now }
    requires empty { H.held holder ≡ [] }
    requires wishes { AreWishes (contract_count board.now) (wishes (owners_of board.now) listed.now) }
{
    let mut desk = Desk::open(alloc, listed, board.owners(), holder)?;
    let turns = turns_are(&mut desk, listed.len(), events);
    Ok(turns && is_ended(&desk, listed.len()))
}

// Whether a desk over an empty holder is ended by all turns.
fn closing_ends<H: Holder + Drop>(
    alloc: Global,
    board: &Board,
    listed: &Lists,
    holder: H,
) -> Result<bool, NoMemory>
    requires contracts { H.count holder ≡ contract_count board.now }
    requires empty { H.held holder ≡ [] }
    requires wishes { AreWishes (contract_count board.now) (wishes (owners_of board.now) listed.now) }
{
    let mut desk = Desk::open(alloc, listed, board.owners(), holder)?;
    desk.close_all();
    Ok(is_ended(&desk, listed.len()))
}

// Whether the rows hold by the holder that chooses anew at each offer.
fn plain_holds(alloc: Global, board: &Board, listed: &Lists) -> Result<bool, NoMemory>
    requires board { IsMarketBoard board.now }
    requires wishes { AreWishes (contract_count board.now) (wishes (owners_of board.now) listed.now) }
{
    for events in ROWS {
        let holder = ChoiceHolder::open(alloc, Greedy::new(board))?;
        if !events_end(alloc, board, listed, holder, events)? {
            return Ok(false);
        }
    }
    let holder = ChoiceHolder::open(alloc, Greedy::new(board))?;
    closing_ends(alloc, board, listed, holder)
}

// Whether they hold by the holder that makes one exchange at an offer.
fn fast_holds(alloc: Global, board: &Board, listed: &Lists) -> Result<bool, NoMemory>
    requires board { IsMarketBoard board.now }
    requires wishes { AreWishes (contract_count board.now) (wishes (owners_of board.now) listed.now) }
{
    for events in ROWS {
        let holder = FastHolder::open(alloc, board)?;
        if !events_end(alloc, board, listed, holder, events)? {
            return Ok(false);
        }
    }
    let holder = FastHolder::open(alloc, board)?;
    closing_ends(alloc, board, listed, holder)
}

// Whether they hold by both holders.
fn both_hold(alloc: Global, board: &Board, listed: &Lists) -> Result<bool, NoMemory>
    requires board { IsMarketBoard board.now }
    requires wishes { AreWishes (contract_count board.now) (wishes (owners_of board.now) listed.now) }
{
    Ok(plain_holds(alloc, board, listed)? && fast_holds(alloc, board, listed)?)
}

// The same on the board of a case. False where memory is wanting.
fn case_holds(alloc: Global, case: &Case) -> bool {
    let board = case.board();
    let listed = case.listed();
    matches!(both_hold(alloc, board, listed), Ok(true))
}

// The same on the board of the folder.
fn folder_holds(alloc: Global) -> bool {
    match case_of(alloc) {
        Ok(case) => case_holds(alloc, &case),
        Err(_) => false,
    }
}

#[test]
fn takes_turns(rt: HostRuntime) -> Result<(), Fail> {
    assert!(rt; folder_holds(rt.alloc()));
    Ok(())
}

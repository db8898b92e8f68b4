// The turns of doctors at a desk, and the places when nobody can offer any more.

ghost use Rattle.std.specs.Prelude.{◌≡◌, ◌<◌, [], All, IfOk, length};
ghost use Rattle.rm_market.specs.Board.{contract_count, owners_of};
ghost use Rattle.rm_market.specs.Laws.{AreWishes};
ghost use Rattle.rm_market.specs.Machine.{run, turns_of};
ghost use Rattle.rm_rounds.specs.Desk.{desk_state, wishes};
ghost use Rattle.rm_replay.specs.Played.{IsPlayedBy};

use rm_base::NoMemory;
use rm_board::Board;
use rm_case::{Places, places_at};
use rm_choice::Holder;
use rm_ranks::Lists;
use rm_rounds::{Desk, Turn};
use std::alloc::Global;

/// What a run did: the turn of each event of the caller's order, and the places of the doctors in the end.
#[derive(Drop)]
pub struct Played {
    pub turns: Vec<Turn>,
    pub places: Places,
}

// What the doctors of an order do at a desk over an empty holder, and the places when nobody can offer any more.
pub(crate) fn play<H: Holder + Drop>(
    alloc: Global,
    board: &Board,
    listed: &Lists,
    holder: H,
    order: &[u32],
) -> Result<Played, NoMemory>
    requires contracts { H.count holder ≡ contract_count board.now }
    requires empty { H.held holder ≡ [] }
    requires wishes { AreWishes (contract_count board.now) (wishes (owners_of board.now) listed.now) }
    requires doctors { All (λ d. d < length listed.now) order.now }
    ensures { IfOk result (λ played.
        IsPlayedBy (H.chosen holder) board.now (wishes (owners_of board.now) listed.now) order.now played.turns.items played.places) }
{
    let mut desk = Desk::open(alloc, listed, board.owners(), holder)?;
    let turns = take_turns(alloc, &mut desk, order)?;
    desk.close_all();
    let places = places_at(alloc, board, &desk, listed.len())?;
    Ok(Played { turns, places })
}

// The turns of the doctors of an order, one after the other.
fn take_turns<H: Holder>(
    alloc: Global,
    desk: &mut Desk<'_, H>,
    order: &[u32],
) -> Result<Vec<Turn>, NoMemory>
    requires doctors { All (λ d. d < length desk.old.wishes.listed) order.now }
    ensures turns { IfOk result (λ v. v.items ≡ turns_of (H.chosen desk.old.holder) desk.old.wishes (desk_state H.held desk.old) order.now) }
    ensures state { IfOk result (λ _. desk_state H.held desk.new ≡ run (H.chosen desk.old.holder) desk.old.wishes (desk_state H.held desk.old) order.now) }
    ensures wishes { IfOk result (λ _. desk.new.wishes ≡ desk.old.wishes) }
    ensures chosen { IfOk result (λ _. H.chosen desk.new.holder ≡ H.chosen desk.old.holder) }
{
    let mut turns = Vec::new(alloc);
    for i in 0..order.len() {
        let turn = desk.offer(order[i]);
        turns.push(turn)?;
    }
    Ok(turns)
}

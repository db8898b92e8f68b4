// Events of a case, one after the other.

ghost use Rattle.std.specs.Prelude.{◌≡◌, [], All, IfOk, length};
ghost use Rattle.rm_market.specs.Board.{contract_count};
ghost use Rattle.rm_market.specs.Laws.{AreWishes};
ghost use Rattle.rm_market.specs.Market.{wishes_of};
ghost use Rattle.rm_case.specs.Case.{IsCase, market};
ghost use Rattle.rm_transit_laws.specs.Transit.{all_happen};
ghost use Rattle.rm_transit.specs.Running.{marks_after, marks_of, rests_after, AreMarksBelow, LeadsToPlacement, StandsAfter};
ghost use Rattle.rm_transit.specs.Travel.{transit_state, wishes, IsEventOf};

use crate::NoMemory;
use crate::transit::Transit;
use rm_case::Case;
use rm_choice::Holder;
use rm_exchange::FastHolder;
use rm_ranks::Lists;
use rm_transit_laws::{Event, Mark};
use std::alloc::Global;

/// Where each doctor stands, and whether nothing travels and no doctor can send.
#[derive(Drop)]
pub struct Standing {
    pub marks: Vec<Mark>,
    pub closed: bool,
}

/// Where the doctors of a case stand after these events from the start, in their order. An event's doctor is his row of
/// `doctors.csv`, and its contract its number on the case's board, both counted from 0; there is one mark for each doctor, in the
/// order of `doctors.csv`. Whatever the events, nothing that was refused stands in a stable set, and where the run is closed the marks
/// tell the placement of the case. `NoMemory` is want of memory.
pub fn run_events(alloc: Global, case: &Case, events: &[Event]) -> Result<Standing, NoMemory>
    requires { All (IsEventOf (wishes_of (market case.now))) events.now }
    ensures marks { IfOk result (λ s. s.marks.items ≡ marks_after case.now events.now) }
    ensures closed { IfOk result (λ s. s.closed ≡ rests_after case.now events.now) }
    ensures doctors { IfOk result (λ s. length s.marks.items ≡ length case.now.roster.doctors) }
    ensures contracts { IfOk result (λ s. AreMarksBelow (contract_count (market case.now).board) s.marks.items) }
    ensures leads { LeadsToPlacement case.now events.now }
    ensures case { IsCase case.now }
{
    let board = case.board();
    let holder = FastHolder::open(alloc, board)?;
    run_with(alloc, case.listed(), board.owners(), holder, events)
}

// The same over a holder that holds nothing yet.
fn run_with<H: Holder + Drop>(
    alloc: Global,
    listed: &Lists,
    owners: &[u32],
    holder: H,
    events: &[Event],
) -> Result<Standing, NoMemory>
    requires wishes { AreWishes (H.count holder) (wishes owners.now listed.now) }
    requires empty { H.held holder ≡ [] }
    requires events { All (IsEventOf (wishes owners.now listed.now)) events.now }
    ensures { IfOk result (λ s. StandsAfter (H.chosen holder) (wishes owners.now listed.now) events.now s.marks.items s.closed) }
{
    let mut transit = Transit::open(alloc, listed, owners, holder)?;
    step_all(&mut transit, events);
    let marks = all_marks(alloc, &transit, listed.len())?;
    let closed = transit.closed();
    Ok(Standing { marks, closed })
}

// The events happen, one after the other.
fn step_all<H: Holder>(transit: &mut Transit<'_, H>, events: &[Event])
    requires { All (IsEventOf transit.old.wishes) events.now }
    ensures state { transit_state H.held transit.new
        ≡ all_happen (H.chosen transit.old.holder) transit.old.wishes (transit_state H.held transit.old) events.now }
    ensures wishes { transit.new.wishes ≡ transit.old.wishes }
{
    for i in 0..events.len() {
        transit.step(events[i]);
    }
}

// Where each doctor stands.
fn all_marks<H: Holder>(
    alloc: Global,
    transit: &Transit<'_, H>,
    doctors: u32,
) -> Result<Vec<Mark>, NoMemory>
    requires { doctors ≡ length transit.now.wishes.listed }
    ensures { IfOk result (λ v. v.items ≡ marks_of transit.now.wishes (transit_state H.held transit.now) doctors) }
{
    let mut marks = Vec::with_capacity(alloc, doctors as usize)?;
    for d in 0..doctors {
        marks.push(transit.mark(d))?;
    }
    Ok(marks)
}

// The placement of a case.

ghost use Rattle.std.specs.Prelude.{◌≡◌, ◌<◌, ℕ, List, [], length, option_map, IfOk};
ghost use Rattle.rm_sets.specs.Sets.{IsSetBelow};
ghost use Rattle.rm_market.specs.Best.{IsBest, values_of};
ghost use Rattle.rm_market.specs.Board.{contract_count, hospital_of, owners_of};
ghost use Rattle.rm_market.specs.Laws.{AreWishes};
ghost use Rattle.rm_market.specs.Stable.{at};
ghost use Rattle.rm_market_laws.specs.Results.{PlacesSameIn};
ghost use Rattle.rm_rounds.specs.Desk.{wishes};
ghost use Rattle.rm_case.specs.Case.{IsCase, market};
ghost use Rattle.rm_case.specs.Solving.{AreListed, ArePlacesOf, IsSolved, IsSolvedWith, places_on};

use crate::case::Case;
use crate::places::Places;
use rm_base::NoMemory;
use rm_board::Board;
use rm_choice::Holder;
use rm_exchange::FastHolder;
use rm_ranks::Lists;
use rm_rounds::Desk;
use std::alloc::Global;

impl Case {
    /// The placement of the case: of all stable sets of contracts the one that is best for every doctor. It keeps every
    /// node's bound (Kojima, Tamura and Yokoo 2018). There is one place for each doctor, in the order of `doctors.csv`: his
    /// hospital, by its row of `hospitals.csv`, counted from 0, or none. All stable sets place the same doctors (Roth 1986).
    /// `NoMemory` is want of memory.
    pub fn solve(&self, alloc: Global) -> Result<Places, NoMemory>
        ensures solved { IfOk result (λ places. IsSolved self.now places) }
        ensures same { PlacesSameIn (market self.now) }
        ensures case { IsCase self.now }
    {
        self.solve_with(alloc, self.listed())
    }

    /// The same for other listed contracts: `listed` has a list for each doctor, in the order of `doctors.csv`, of distinct
    /// contracts of his own, best first. A contract is its number on the board, counted from 0. The places are told as by
    /// `solve`, and `NoMemory` is want of memory.
    pub fn solve_with(&self, alloc: Global, listed: &Lists) -> Result<Places, NoMemory>
        requires { AreListed self.now listed.now }
        ensures { IfOk result (λ places. IsSolvedWith self.now listed.now places) }
    {
        let board = self.board();
        let holder = FastHolder::open(alloc, board)?;
        place_with(alloc, board, listed, holder)
    }
}

// The places that the doctors have once each was offered to a holder of the best subset, and none can offer any more.
pub(crate) fn place_with<H: Holder + Drop>(
    alloc: Global,
    board: &Board,
    listed: &Lists,
    holder: H,
) -> Result<Places, NoMemory>
    requires contracts { H.count holder ≡ contract_count board.now }
    requires best { (X : List ℕ) → IsSetBelow (contract_count board.now) X → IsBest (values_of board.now) X (H.chosen holder X) }
    requires empty { H.held holder ≡ [] }
    requires wishes { AreWishes (contract_count board.now) (wishes (owners_of board.now) listed.now) }
    ensures { IfOk result (ArePlacesOf board.now (wishes (owners_of board.now) listed.now)) }
{
    let mut desk = Desk::open(alloc, listed, board.owners(), holder)?;
    desk.close_all();
    places_at(alloc, board, &desk, listed.len())
}

/// The places of the doctors at a desk of a board's contracts: for each the hospital of his held contract, counted from 0, or none.
/// `NoMemory` is want of memory.
pub fn places_at<H: Holder>(
    alloc: Global,
    board: &Board,
    desk: &Desk<'_, H>,
    doctors: u32,
) -> Result<Places, NoMemory>
    requires doctors { doctors ≡ length desk.now.wishes.listed }
    requires held { IsSetBelow (contract_count board.now) (H.held desk.now.holder) }
    ensures { IfOk result (λ places. places ≡ places_on board.now desk.now.wishes (H.held desk.now.holder)) }
{
    let mut places = Places::empty(alloc, doctors)?;
    for d in 0..doctors {
        places.set(d, hospital_at(board, desk, d));
    }
    Ok(places)
}

// The hospital of doctor d at a desk, or none.
fn hospital_at<H: Holder>(board: &Board, desk: &Desk<'_, H>, d: u32) -> Option<u32>
    requires doctor { d < length desk.now.wishes.listed }
    requires held { IsSetBelow (contract_count board.now) (H.held desk.now.holder) }
    ensures { result ≡ option_map (hospital_of board.now) (at desk.now.wishes d (H.held desk.now.holder)) }
{
    match desk.place(d) {
        Some(x) => Some(board.hospital(x)),
        None => None,
    }
}

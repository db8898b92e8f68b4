// The case with the list of one doctor replaced.

ghost use Rattle.std.specs.Prelude.{◌≡◌, ◌<◌, length, All, IfOk};
ghost use Rattle.rm_market.specs.Market.{IsList, listed_contracts, replaced, wishes_of};
ghost use Rattle.rm_case.specs.Case.{IsCase, market};
ghost use Rattle.rm_case.specs.Solving.{AreListed};

use crate::case::Case;
use rm_base::NoMemory;
use rm_board::Board;
use rm_ranks::Lists;
use std::alloc::Global;

impl Case {
    /// The listed contracts where doctor d, counted from 0, gives another list: these hospitals, each once, best first. They are
    /// told as by `listed`, and those of the other doctors are the same. An empty list withdraws him. `NoMemory` is want of
    /// memory.
    pub fn listed_with(&self, alloc: Global, d: u32, hospitals: &[u32]) -> Result<Lists, NoMemory>
        requires doctor { d < length self.now.roster.doctors }
        requires list { IsList (market self.now).board hospitals.now }
        ensures listed { IfOk result (λ listed. listed ≡ (wishes_of (replaced (market self.now) d hospitals.now)).listed) }
        ensures own { IfOk result (λ listed. AreListed self.now listed) }
        ensures case { IsCase self.now }
    {
        let own = contracts_at(alloc, self.board(), d, hospitals)?;
        self.listed().with(alloc, d, &own)
    }
}

// The contracts of doctor d at these hospitals, in their order. A hospital that doesn't rank him is passed over.
fn contracts_at(
    alloc: Global,
    board: &Board,
    d: u32,
    hospitals: &[u32],
) -> Result<Vec<u32>, NoMemory>
    requires { All (λ h. h < length board.now.ranks) hospitals.now }
    ensures { IfOk result (λ own. own.items ≡ listed_contracts board.now.ranks d hospitals.now) }
{
    let mut own = Vec::new(alloc);
    for i in 0..hospitals.len() {
        let Some(x) = board.find(d, hospitals[i]) else {
            continue;
        };
        own.push(x)?;
    }
    Ok(own)
}

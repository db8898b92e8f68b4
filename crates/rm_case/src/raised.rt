// The case with a raised cap.

ghost use Rattle.std.specs.Prelude.{◌≡◌, ◌+◌, ◌<◌, ◌≤◌, length, set, IfOk};
ghost use Rattle.rm_market.specs.Market.{IsMarket, wishes_of};
ghost use Rattle.rm_valuation.specs.Counts.{IsMarketBoard};
ghost use Rattle.rm_relax_laws.specs.Raised.{IsRaisedCap};
ghost use Rattle.rm_policy.specs.Steps.{flat};
ghost use Rattle.rm_case.specs.Case.{market};
ghost use Rattle.rm_case.specs.NodeSteps.{node_steps};
ghost use Rattle.rm_case.specs.Suits.{SuitsRoster};
ghost use Rattle.rm_case.specs.Raised.{MayRaise, node_of_group, raised};
ghost use Rattle.rm_case.specs.Solving.{ArePlacesOf};

use crate::case::Case;
use crate::compile::tie_rule;
use crate::node_steps::node_steps;
use crate::places::Places;
use crate::solve::place_with;
use rm_base::NoMemory;
use rm_board::Board;
use rm_exchange::FastHolder;
use rm_laminar::Tree;
use rm_policy::Policy;
use rm_roster::Roster;
use rm_steps::Steps;
use std::alloc::{AllocError, Global};

// The steps of the nodes where group g has so many steps of 0.
fn raised_steps(
    alloc: Global,
    roster: &Roster,
    policy: &Policy,
    g: u32,
    cap: u32,
) -> Result<Vec<Steps>, NoMemory>
    requires suits { SuitsRoster roster.now policy.now }
    requires group { g < length policy.now.groups.members }
    requires bounded { cap ≤ 1_000_000 }
    ensures { IfOk result (λ v. v.items ≡ set (node_steps roster.now policy.now) (length roster.now.hospitals + g) (flat cap)) }
{
    let node = roster.hospitals().len() as usize + g as usize;
    let mut steps = node_steps(alloc, roster, policy)?;
    if node < steps.len() {
        steps[node] = Steps::flat(alloc, cap)?;
    }
    Ok(steps)
}

// The board of a roster and a policy where group g has this cap.
fn raised_board(
    alloc: Global,
    roster: &Roster,
    policy: &Policy,
    g: u32,
    cap: u32,
) -> Result<Board, NoMemory>
    requires suits { SuitsRoster roster.now policy.now }
    requires group { g < length policy.now.groups.members }
    requires bounded { cap ≤ 1_000_000 }
    ensures { IfOk result (λ board. board ≡ (raised (record { roster = roster.now; policy = policy.now }) g cap).board) }
{
    let steps = raised_steps(alloc, roster, policy, g, cap)?;
    let Ok(tree) = Tree::build(alloc, roster.hospitals().len(), policy.groups()) else {
        return Err(AllocError);
    };
    match Board::build(alloc, roster.ranks(), tree, steps, tie_rule(policy)) {
        Ok(board) => Ok(board),
        Err(_) => Err(AllocError),
    }
}

impl Case {
    /// The board of the case where group g, counted from 0, has this cap in place of its own, and nothing else changed: the
    /// contracts, their numbers and the tie order are those of the case's board. The group must be given by `cap`, with no node
    /// outside it, and the cap is its own or a greater one, at most 1,000,000. `NoMemory` is want of memory.
    pub fn raised(&self, alloc: Global, g: u32, cap: u32) -> Result<Board, NoMemory>
        requires { MayRaise self.now g cap }
        ensures board { IfOk result (λ board. board ≡ (raised self.now g cap).board) }
        ensures raised { IsRaisedCap (market self.now).board (node_of_group self.now g) cap }
        ensures market { IsMarket (raised self.now g cap) }
    {
        raised_board(alloc, self.roster(), self.policy(), g, cap)
    }

    /// The placement by the doctors' listed contracts on another board with the case's contracts. The places are told as by `solve`,
    /// and `NoMemory` is want of memory.
    pub fn solve_on(&self, alloc: Global, board: &Board) -> Result<Places, NoMemory>
        requires contracts { board.now.ranks ≡ (market self.now).board.ranks }
        requires board { IsMarketBoard board.now }
        ensures { IfOk result (ArePlacesOf board.now (wishes_of (market self.now))) }
    {
        let holder = FastHolder::open(alloc, board)?;
        place_with(alloc, board, self.listed(), holder)
    }
}

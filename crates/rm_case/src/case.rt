// The case of a folder.

ghost use Rattle.std.specs.Prelude.{◌≡◌, ◌<◌, length};
ghost use Rattle.rm_base.specs.Checks.{first_of};
ghost use Rattle.rm_base.specs.Reading.{Reads};
ghost use Rattle.rm_market.specs.Market.{wishes_of};
ghost use Rattle.rm_case.specs.Case.{IsCase, board_checks, market, stands_for, title_of};
ghost use Rattle.rm_case.specs.Suits.{SuitsRoster};
ghost use Rattle.rm_case.specs.Parts.{Compiles};

use crate::compile::compile;
use rm_base::ReadFault;
use rm_board::Board;
use rm_policy::Policy;
use rm_ranks::Lists;
use rm_roster::Roster;
use std::alloc::Global;
use std::marker::Model;

/// What the files of a folder say, the board that they make, and the doctors' listed contracts.
pub struct Case {
    roster: Roster,
    policy: Policy,
    board: Board,
    listed: Lists,
}

// (So whoever drops a case calls this, and does not drop its parts one by one.)
impl Drop for Case {
    fn drop(self) {
        let Case {
            roster: _,
            policy: _,
            board: _,
            listed: _,
        } = self;
    }
}

impl Model for Case {
    ghost use Rattle.rm_case.specs.Case.{CaseData, IsCaseKept};

    ghost Value = { CaseData };

    ghost view = { λ c. record { roster = c.roster; policy = c.policy } };

    ghost invariant = { λ c. IsCaseKept (record { roster = c.roster; policy = c.policy }) c.board c.listed };
}

/// What is kept beside the files' content: the board, and per doctor his listed contracts.
#[derive(Drop)]
pub struct Parts {
    pub board: Board,
    pub listed: Lists,
}

// The parts that a roster and a policy make, or the first refusal of the policy's groups and of its tie order.
fn parts_of(alloc: Global, roster: &Roster, policy: &Policy) -> Result<Parts, ReadFault>
    requires { SuitsRoster roster.now policy.now }
    ensures { Compiles (record { roster = roster.now; policy = policy.now }) result }
{
    let board = match compile(alloc, roster, policy) {
        Ok(board) => board,
        Err(fault) => return Err(fault),
    };
    let Ok(listed) = board.listed(alloc, roster.lists()) else {
        return Err(ReadFault::NoMemory);
    };
    Ok(Parts { board, listed })
}

/// The name of a node: that of its hospital, of the prefecture of its entry, or of its group.
#[derive(Clone, Copy, Debug, PartialEq, Eq)]
pub enum NodeName<'a> {
    Hospital(&'a str),
    Prefecture(&'a str),
    Group(&'a str),
}

impl Case {
    // The case of a roster and of a policy for its hospitals, or the first refusal of the policy's groups and of its tie order.
    pub(crate) fn build(alloc: Global, roster: Roster, policy: Policy) -> Result<Case, ReadFault>
        requires { SuitsRoster roster policy }
        ensures { Reads (first_of (board_checks roster policy)) (record { roster = roster; policy = policy }) result }
    {
        match parts_of(alloc, &roster, &policy) {
            Ok(parts) => Ok(Case {
                roster,
                policy,
                board: parts.board,
                listed: parts.listed,
            }),
            Err(fault) => Err(fault),
        }
    }

    /// The roster. Here and at the other parts `case` says what holds of every case.
    pub fn roster(&self) -> &Roster
        ensures roster { result.now ≡ self.entry.now.roster }
        ensures case { IsCase self.entry.now }
    {
        &self.roster
    }

    /// The policy: that of the folder's file, or the plain one where it has none.
    pub fn policy(&self) -> &Policy
        ensures policy { result.now ≡ self.entry.now.policy }
        ensures case { IsCase self.entry.now }
    {
        &self.policy
    }

    /// The board that the roster and the policy make.
    pub fn board(&self) -> &Board
        ensures board { result.now ≡ (market self.entry.now).board }
        ensures case { IsCase self.entry.now }
    {
        &self.board
    }

    /// Per doctor, in the order of `doctors.csv`, the contracts at the hospitals of his list, best first. A contract is its
    /// number on the board, counted from 0. A hospital that doesn't rank him is passed over.
    pub fn listed(&self) -> &Lists
        ensures listed { result.now ≡ (wishes_of (market self.entry.now)).listed }
        ensures case { IsCase self.entry.now }
    {
        &self.listed
    }

    /// The name of a node, which must be one of the board. The nodes count from 0: first the hospitals, then the policy's
    /// prefecture entries, and then its groups.
    pub fn node_name(&self, node: u32) -> NodeName<'_>
        requires { node < length (market self.now).board.nodes }
        ensures { stands_for result ≡ title_of self.entry.now node }
    {
        let hospitals = self.roster.hospitals();
        if node < hospitals.len() {
            return NodeName::Hospital(hospitals.name(node));
        }
        let group = node - hospitals.len();
        let name = self.policy.group_name(group);
        if group < self.policy.prefecture_entries() {
            return NodeName::Prefecture(name);
        }
        NodeName::Group(name)
    }
}

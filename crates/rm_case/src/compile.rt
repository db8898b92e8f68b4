// The board of a roster and a policy.

ghost use Rattle.std.specs.Prelude.{◌≡◌, OnOk};
ghost use Rattle.rm_base.specs.Checks.{first_of};
ghost use Rattle.rm_base.specs.Codes.{refuse};
ghost use Rattle.rm_base.specs.Reading.{Reads};
ghost use Rattle.rm_case.specs.Case.{IsCase, board_checks};
ghost use Rattle.rm_case.specs.Compiled.{compiled_board};
ghost use Rattle.rm_case.specs.Faults.{tree_read_fault, ties_read_fault};
ghost use Rattle.rm_case.specs.Suits.{SuitsRoster, IsRuleOf};

use crate::node_steps::node_steps;
use rm_base::ReadFault;
use rm_base::codes::{
    CROSSING_GROUPS, DEPTH_LIMIT, GROUP_EMPTY, LISTED_AGAINST_RANKS, LISTED_MISSING,
    LISTED_NO_CONTRACT, LISTED_REPEATED, POLICY_FILE, TOO_MANY_ITEMS,
};
use rm_board::{Board, TieRule};
use rm_laminar::Tree;
use rm_market::{BoardFault, TreeFault};
use rm_policy::{Policy, Ties};
use rm_roster::Roster;
use std::alloc::Global;

// A refusal of the policy.
fn refused(code: u8, a: u64, b: u64) -> ReadFault
    ensures { result ≡ ReadFault.Refused (refuse code POLICY_FILE a b) }
{
    ReadFault::refused(code, POLICY_FILE, a, b)
}

// Why groups make no tree. Groups are items from 1.
fn tree_refusal(fault: TreeFault) -> ReadFault
    ensures { result ≡ tree_read_fault fault }
{
    match fault {
        TreeFault::Empty(b) => refused(GROUP_EMPTY, b as u64 + 1, 0),
        TreeFault::Crossing { a, b, .. } => refused(CROSSING_GROUPS, a as u64 + 1, b as u64 + 1),
        TreeFault::Deep(b) => refused(TOO_MANY_ITEMS, b as u64 + 1, DEPTH_LIMIT),
        TreeFault::NoMemory => ReadFault::NoMemory,
    }
}

// Why a listed order is none. Elements count from 1, and so do doctors and hospitals in refusals.
fn ties_refusal(fault: BoardFault) -> ReadFault
    ensures { result ≡ ties_read_fault fault }
{
    match fault {
        BoardFault::Unknown(e) => refused(LISTED_NO_CONTRACT, e as u64, 0),
        BoardFault::Repeated(e, f) => refused(LISTED_REPEATED, e as u64, f as u64),
        BoardFault::AgainstRank(e, f) => refused(LISTED_AGAINST_RANKS, e as u64, f as u64),
        BoardFault::Missing(d, h) => refused(LISTED_MISSING, d as u64 + 1, h as u64 + 1),
        BoardFault::NoMemory => ReadFault::NoMemory,
    }
}

// The rule of a policy's ties.
pub(crate) fn tie_rule(policy: &Policy) -> TieRule<'_>
    ensures { IsRuleOf policy.entry.now result }
{
    match policy.ties() {
        Ties::ByRank => TieRule::ByRank,
        Ties::ByHospital => TieRule::ByHospital,
        Ties::Listed => TieRule::Listed(policy.listed()),
    }
}

/// The board of a roster and a policy for its hospitals. `Refused` is the first group that is empty, crosses an earlier one or
/// has a hospital in too many groups, told by its item; and else, where the ties are listed, the first element that is no
/// contract, stands before or goes against a rank list, or the least contract that the list lacks.
pub(crate) fn compile(alloc: Global, roster: &Roster, policy: &Policy) -> Result<Board, ReadFault>
    requires { SuitsRoster roster.now policy.now }
    ensures board { Reads (first_of (board_checks roster.now policy.now)) (compiled_board roster.now policy.now) result }
    ensures case { OnOk result (IsCase (record { roster = roster.now; policy = policy.now })) }
{
    let hospitals = roster.hospitals().len();
    let tree = match Tree::build(alloc, hospitals, policy.groups()) {
        Ok(tree) => tree,
        Err(fault) => return Err(tree_refusal(fault)),
    };
    let Ok(steps) = node_steps(alloc, roster, policy) else {
        return Err(ReadFault::NoMemory);
    };
    match Board::build(alloc, roster.ranks(), tree, steps, tie_rule(policy)) {
        Ok(board) => Ok(board),
        Err(fault) => Err(ties_refusal(fault)),
    }
}

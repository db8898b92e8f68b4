//! The tie orders of a board, strict orders of its contracts that agree with the rank lists; and what makes a board.
#![tactic(auto)]

ghost use Rattle.std.specs.Prelude.{◌≡◌, ℕ, List, None};
ghost use Rattle.rm_market.specs.declared.ListedPair.{ListedPair};
ghost use Rattle.rm_market.specs.Board.{IsTieOrder};
ghost use Rattle.rm_market.specs.Ties.{by_hospital, by_rank, listed_order, listed_fault};
ghost use Rattle.rm_board_laws.specs.Groups.{AcceptedGroups};
ghost use Rattle.rm_board_laws.specs.HospitalBoards.{HospitalsMakeBoards, PlainMarkets, AcceptedMarkets, AcceptedTrees};

/// The orders by hospital and by rank, of any rank lists, and each listed order without a fault are tie orders.
pub fn tie_orders()
    ensures hospital { (ranks : List (List ℕ)) → IsTieOrder ranks (by_hospital ranks) }
    ensures rank { (ranks : List (List ℕ)) → IsTieOrder ranks (by_rank ranks) }
    ensures listed { (ranks : List (List ℕ)) (pairs : List ListedPair) → listed_fault ranks pairs ≡ None → IsTieOrder ranks (listed_order ranks pairs) }
{}

/// Rank lists of known doctors, steps of hospitals that never rise, groups of hospitals of which any two are nested or apart, and a
/// tie order make a board. So the market without a policy is one, with as many steps of 0 as a hospital's capacity and ties by rank;
/// and so is each market whose groups have no fault, and its nodes are those of the tree of these groups.
pub fn boards_of_hospitals()
    ensures board { HospitalsMakeBoards }
    ensures plain { PlainMarkets }
    ensures accepted { AcceptedMarkets }
    ensures tree { AcceptedTrees }
{}

/// Groups have no fault exactly where they make a tree: none is empty, any two are nested or apart, and no hospital stands in too many.
pub fn groups_of_a_tree()
    ensures { (groups : List (List ℕ)) → AcceptedGroups groups }
{}

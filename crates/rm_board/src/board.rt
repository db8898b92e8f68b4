// The board of a market.

ghost use Rattle.std.specs.Prelude.{◌≡◌, ◌↔◌, ℕ, ◌<◌, ◌==◌, length, position, Some, All, IfOk};
ghost use Rattle.std.specs.List.{position_or_len, sum_by};
ghost use Rattle.rm_market.specs.Board.{contract_count, contract_of, doctor_of, hospital_of, leaf_of, node_at, owners_of, sets_of};
ghost use Rattle.rm_market.specs.Market.{listed_of};
ghost use Rattle.rm_market.specs.Tree.{sets_of_tree};
ghost use Rattle.rm_board.specs.Boards.{BuildsBoard};
ghost use Rattle.rm_board.specs.Rules.{AreKnown};
ghost use Rattle.rm_board.specs.TieKeys.{tie_key};

use crate::contracts::{Contracts, NoMemory};
use crate::keys::is_ranked;
use crate::ties::{TieRule, places_in, tie_order};
use crate::wishes::listed;
use rm_laminar::Tree;
use rm_market::BoardFault;
use rm_ranks::Lists;
use rm_steps::Steps;
use std::alloc::Global;
use std::marker::Model;

/// The board of a market: its contracts, the tree of its nodes with the steps of each, and the tie order. Contracts and nodes
/// count from 0; node h is hospital h, and the groups follow.
pub struct Board {
    contracts: Contracts,
    tree: Tree,
    steps: Vec<Steps>,
    places: Vec<u32>,
    ranked: bool,
}

// (Whoever drops one calls this, and has not to drop its parts one by one.)
impl Drop for Board {
    fn drop(self) {
        let Board {
            contracts: _,
            tree: _,
            steps: _,
            places: _,
            ranked: _,
        } = self;
    }
}

impl Model for Board {
    ghost use Rattle.rm_market.specs.Board.{Board as MarketBoard};
    ghost use Rattle.rm_board.specs.Boards.{board_of, ties_of, IsBoardKept};

    ghost Value = { MarketBoard };

    ghost view = { λ b. board_of b.contracts b.tree b.steps.items (ties_of b.places.items) };

    ghost invariant = { λ b. IsBoardKept b.contracts b.tree b.steps.items b.places.items b.ranked };
}

impl Board {
    /// The board of these rank lists, one for each hospital of the tree, with one list of steps for each node. The rank lists
    /// together hold fewer than 4,000,000,000 doctors. Only a listed tie order has faults, of which the first decides: elements
    /// count from 1, and `Missing` has the doctor and the hospital.
    pub fn build(
        alloc: Global,
        ranks: &Lists,
        tree: Tree,
        steps: Vec<Steps>,
        ties: TieRule<'_>,
    ) -> Result<Board, BoardFault>
        requires hospitals { length ranks.now ≡ tree.hospitals }
        requires steps { length steps.items ≡ length (sets_of_tree tree) }
        requires few { sum_by length ranks.now < 4_000_000_000 }
        requires known { AreKnown (length ranks.now) ties }
        ensures { BuildsBoard ranks.now tree steps.items ties.entry result }
    {
        let Ok(contracts) = Contracts::build(alloc, ranks) else {
            return Err(BoardFault::NoMemory);
        };
        let order = tie_order(alloc, &contracts, ties)?;
        let Ok(places) = places_in(alloc, &contracts, &order) else {
            return Err(BoardFault::NoMemory);
        };
        let ranked = is_ranked(&contracts, &order, ties);
        Ok(Board {
            contracts,
            tree,
            steps,
            places,
            ranked,
        })
    }

    /// How many contracts there are.
    pub fn contracts(&self) -> u32
        ensures { result ≡ contract_count self.now }
    {
        self.contracts.count()
    }

    /// The doctor of contract x.
    pub fn doctor(&self, x: u32) -> u32
        requires { x < contract_count self.now }
        ensures { result ≡ doctor_of self.now x }
    {
        self.contracts.doctor(x)
    }

    /// The hospital of contract x.
    pub fn hospital(&self, x: u32) -> u32
        requires { x < contract_count self.now }
        ensures hospital { result ≡ hospital_of self.now x }
        ensures below { result < length self.now.ranks }
    {
        self.contracts.hospital(x)
    }

    /// The doctor of each contract.
    pub fn owners(&self) -> &[u32]
        ensures { result.now ≡ owners_of self.now }
    {
        self.contracts.owners()
    }

    /// The innermost node of contract x, by which it is counted: the node of its hospital.
    pub fn leaf(&self, x: u32) -> u32
        requires { x < contract_count self.now }
        ensures leaf { result ≡ leaf_of self.now x }
        ensures below { result < length self.now.ranks }
    {
        self.contracts.hospital(x)
    }

    /// The place of contract x in the tie order, counted from 0.
    pub fn tie(&self, x: u32) -> u32
        requires { x < contract_count self.now }
        ensures { position (λ y. y == x) self.now.ties ≡ Some result }
    {
        self.places[x as usize]
    }

    /// The tie key of contract x, a number that is smaller than that of contract y exactly where x comes before y in tie order. In an
    /// order by rank it is found without the table of places, if the longest rank list times the number of hospitals is below 2 ^ 32:
    /// it is then the place in the rank list, times that number, plus the hospital. Else it is the place in the order.
    pub fn tie_key(&self, x: u32) -> u32
        requires { x < contract_count self.now }
        ensures key { result ≡ tie_key self.now x }
        ensures order { (y : ℕ) → y < contract_count self.now → (result < tie_key self.now y)
            ↔ (position_or_len (λ z. z == x) self.now.ties < position_or_len (λ z. z == y) self.now.ties) }
    {
        if self.ranked {
            return self.contracts.rank_key(x);
        }
        self.places[x as usize]
    }

    /// The contract of doctor d and hospital h; None exactly where h doesn't rank d.
    pub fn find(&self, d: u32, h: u32) -> Option<u32>
        requires { h < length self.now.ranks }
        ensures { result ≡ contract_of self.now d h }
    {
        self.contracts.find(d, h)
    }

    /// Per doctor the contracts at the hospitals of his list, in its order. A hospital that doesn't rank him is passed over.
    pub fn listed(&self, alloc: Global, lists: &Lists) -> Result<Lists, NoMemory>
        requires { All (All (λ h. h < length self.now.ranks)) lists.now }
        ensures { IfOk result (λ listed. listed ≡ listed_of self.now.ranks lists.now) }
    {
        listed(alloc, lists, &self.contracts)
    }

    /// The tree of the nodes.
    pub fn tree(&self) -> &Tree
        ensures hospitals { result.now.hospitals ≡ length self.now.ranks }
        ensures sets { sets_of_tree result.now ≡ sets_of self.now }
    {
        &self.tree
    }

    /// The steps of a node.
    pub fn steps(&self, node: u32) -> &Steps
        requires { node < length self.now.nodes }
        ensures { result.now ≡ (node_at self.now node).steps }
    {
        &self.steps[node as usize]
    }
}

// The choice of a hospital with one post.

ghost use Rattle.std.specs.Prelude.{◌≡◌, take};
ghost use Rattle.rm_market.specs.Best.{IsChoice};

use crate::{Choice, Room};

/// The choice of a hospital with one post, which prefers the contracts in the order of their numbers: the first of what is offered. It is the
/// smallest choice with the laws, for runs that are worked out by hand.
#[derive(Drop)]
pub struct OnePost {
    contracts: u32,
    ghost lawful: { IsChoice contracts (take 1) },
}

impl OnePost {
    /// The choice among so many contracts, which count from 0.
    pub fn new(contracts: u32) -> OnePost
        ensures count { ⟦<OnePost as Choice>⟧.count result ≡ contracts }
        ensures chosen { ⟦<OnePost as Choice>⟧.chosen result ≡ take 1 }
    {
        OnePost { contracts }
    }
}

impl Choice for OnePost {
    ghost count = { λ c. c.contracts };

    ghost node_count = { λ _. 0 };

    ghost chosen = { λ _. take 1 };

    ghost lawful = { λ c. c.lawful };

    fn contracts(&self) -> u32 {
        self.contracts
    }

    fn nodes(&self) -> u32 {
        0
    }

    #[tactic(auto, using(rm_sets::proofs::Sizes::length_below))]
    fn choose(&self, offered: &[u32], room: &mut Room) -> usize {
        if offered.is_empty() {
            return 0;
        }
        room.list[0] = offered[0];
        1
    }
}

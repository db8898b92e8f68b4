// Rivals of which the cheapest stays known while one after another changes.

ghost use Rattle.std.specs.Prelude.{◌≡◌, ◌*◌, ◌^◌, ◌<◌, ℕ, List, None, length, replicate, set, IfOk};
ghost use Rattle.rm_exchange.specs.Removals.{IsCheapestOf};

use crate::removal::{Removal, cheaper, is_same};
use rm_choice::NoMemory;
use std::alloc::Global;
use std::marker::Model;

// The removals of some rivals, of which each may be empty. Entry `width + i` is that of rival i, and each entry j from 1
// below the width is the cheaper one of the entries 2j and 2j + 1, so that entry 1 is the cheapest of all. It stands beside
// the entries too, so that it is read without them. To change one rival takes at most as many steps as the width has binary
// digits.
#[derive(Drop)]
pub struct Tournament {
    width: usize,
    entries: Vec<Option<Removal>>,
    best: Option<Removal>,
}

impl Model for Tournament {
    ghost use Rattle.std.specs.Prelude.{List, Option, drop};
    ghost use Rattle.rm_exchange.specs.declared.removal.Removal.{Removal};
    ghost use Rattle.rm_exchange.specs.Removals.{IsTournament};

    ghost Value = { List (Option Removal) };

    ghost view = { λ t. drop t.width t.entries.items };

    ghost invariant = { λ t. IsTournament t.width t.entries.items t.best };
}

impl Tournament {
    // So many rivals, all empty.
    pub(crate) fn new(alloc: Global, width: usize) -> Result<Tournament, NoMemory>
        requires { width < 2 ^ 40 }
        ensures { IfOk result (λ t. t ≡ replicate width None) }
    {
        let mut entries = Vec::with_capacity(alloc, 2 * width)?;
        for _ in 0..2 * width {
            entries.push(None)?;
        }
        Ok(Tournament {
            width,
            entries,
            best: None,
        })
    }

    // The cheapest of the rivals.
    pub(crate) fn best(&self) -> Option<Removal>
        ensures { IsCheapestOf self.now result }
    {
        self.best
    }

    // Changes one rival.
    pub(crate) fn put(&mut self, place: usize, rival: Option<Removal>)
        requires { place < length self.old }
        ensures { self.new ≡ set self.old place rival }
    {
        let mut j = self.width + place;
        self.entries[j] = rival;
        while j > 1 {
            j /= 2;
            let winner = cheaper(self.entries[2 * j], self.entries[2 * j + 1]);
            if is_same(winner, self.entries[j]) {
                return;
            }
            self.entries[j] = winner;
        }
        self.best = self.entries[1];
    }
}

//! A holder that chooses anew at each offer.

ghost use Rattle.std.specs.Prelude.{◌≡◌, ℕ, ◌+◌, ◌<◌, ◌≤◌, List, [], length, find, insert as list_insert, not, false, IfOk, vec_capacity};
ghost use Rattle.rm_sets.specs.Sets.{has, IsSet, IsWithin, with_one};
ghost use Rattle.rm_market.specs.Machine.{IsOutcome, outcome_of};
ghost use Rattle.rm_choice.specs.Holding.{IsReady};

use crate::{Choice, Holder, NoMemory, Room};
use rm_market::Outcome;
use std::alloc::Global;

/// A held set, and the choice that answers each offer.
#[derive(Drop)]
pub struct ChoiceHolder<C: Choice> {
    choice: C,
    list: Vec<u32>,
    room: Room,
    ghost ready: { IsReady (C.count choice) (C.node_count choice) (C.chosen choice) list.items (vec_capacity list) room },
}

impl<C: Choice + Drop> ChoiceHolder<C> {
    /// Holds nothing at first, and takes all memory that later calls need.
    pub fn open(alloc: Global, choice: C) -> Result<ChoiceHolder<C>, NoMemory>
        ensures held { IfOk result (λ h. ⟦<ChoiceHolder<C> as Holder>⟧.held h ≡ []) }
        ensures count { IfOk result (λ h. ⟦<ChoiceHolder<C> as Holder>⟧.count h ≡ C.count choice) }
        ensures chosen { IfOk result (λ h. ⟦<ChoiceHolder<C> as Holder>⟧.chosen h ≡ C.chosen choice) }
    {
        let contracts = choice.contracts();
        let list = Vec::with_capacity(alloc, contracts as usize)?;
        let room = Room::new(alloc, contracts, choice.nodes())?;
        Ok(ChoiceHolder { choice, list, room })
    }
}

impl<C: Choice + Drop> Holder for ChoiceHolder<C> {
    ghost count = { λ h. C.count h.choice };

    ghost held = { λ h. h.list.items };

    ghost chosen = { λ h. C.chosen h.choice };

    ghost lawful = { λ h. C.lawful h.choice };

    ghost is_set = { λ h. h.ready.set };

    ghost settled = { λ h. h.ready.settled };

    fn contracts(&self) -> u32 {
        self.choice.contracts()
    }

    fn holds(&self, x: u32) -> bool {
        holds(&self.list, x)
    }

    fn offer(&mut self, x: u32) -> Outcome {
        offer(&self.choice, &mut self.list, &mut self.room, x)
    }
}

// Offers x to the choice, with all that is held in the list.
fn offer<C: Choice>(choice: &C, list: &mut Vec<u32>, room: &mut Room, x: u32) -> Outcome
    requires ready { IsReady (C.count choice.now) (C.node_count choice.now) (C.chosen choice.now) list.old.items (vec_capacity list.old) room.old }
    requires contract { x < C.count choice.now }
    requires new { has x list.old.items ≡ false }
    ensures ready { IsReady (C.count choice.now) (C.node_count choice.now) (C.chosen choice.now) list.new.items (vec_capacity list.new) room.new }
    ensures held { list.new.items ≡ C.chosen choice.now (with_one list.old.items x) }
    ensures outcome { IsOutcome list.old.items x list.new.items result }
{
    insert(list, x);
    let count = choice.choose(list, room);
    let chosen = &room.list[..count];
    let outcome = outcome(list, x, chosen);
    replace(list, chosen);
    outcome
}

// Puts x into an ascending list that has space for it.
fn insert(list: &mut Vec<u32>, x: u32)
    requires new { has x list.old.items ≡ false }
    requires space { length list.old.items < vec_capacity list.old }
    ensures items { list.new.items ≡ with_one list.old.items x }
    ensures capacity { vec_capacity list.old ≤ vec_capacity list.new }
{
    let place = place_of(list, x);
    let _ = list.insert(place, x);
}

// Makes the list these items, for which it has space.
fn replace(list: &mut Vec<u32>, items: &[u32])
    requires space { length items.now ≤ vec_capacity list.old }
    ensures items { list.new.items ≡ items.now }
    ensures capacity { vec_capacity list.old ≤ vec_capacity list.new }
{
    list.clear();
    let _ = list.extend_from_slice(items);
}

// Whether x is in the list.
fn holds(list: &[u32], x: u32) -> bool
    ensures { result ≡ has x list.now }
{
    list.contains(&x)
}

// How many members of a list are before the first that is above x.
fn place_of(list: &[u32], x: u32) -> usize
    requires new { has x list.now ≡ false }
    ensures within { result ≤ length list.now }
    ensures place { list_insert list.now result x ≡ with_one list.now x }
{
    for i in 0..list.len() {
        if list[i] > x {
            return i;
        }
    }
    list.len()
}

// The first of the offered contracts that wasn't chosen.
fn first_refused(offered: &[u32], chosen: &[u32]) -> Option<u32>
    requires offered { IsSet offered.now }
    requires chosen { IsSet chosen.now }
    requires within { IsWithin chosen.now offered.now }
    ensures { result ≡ find (λ z. not (has z chosen.now)) offered.now }
{
    for i in 0..offered.len() {
        if i == chosen.len() || chosen[i] != offered[i] {
            return Some(offered[i]);
        }
    }
    None
}

// What the offer of x did, where these were chosen of the held contracts with x.
fn outcome(offered: &[u32], x: u32, chosen: &[u32]) -> Outcome
    requires offered { IsSet offered.now }
    requires chosen { IsSet chosen.now }
    requires within { IsWithin chosen.now offered.now }
    ensures { result ≡ outcome_of offered.now x chosen.now }
{
    if !holds(chosen, x) {
        return Outcome::Refused;
    }
    match first_refused(offered, chosen) {
        None => Outcome::Kept,
        Some(z) => Outcome::Swapped(z),
    }
}

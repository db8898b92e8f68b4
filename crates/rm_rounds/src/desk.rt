//! A desk where doctors offer their contracts in turn.

ghost use Rattle.std.specs.Prelude.{◌≡◌, ◌↔◌, ℕ, ◌+◌, ◌<◌, ◌≤◌, List, [], length, None, is_some, IfOk, IfSome, IsTrue};
ghost use Rattle.rm_sets.specs.Sets.{IsIn};
ghost use Rattle.rm_market.specs.Stable.{at, IsStable, IsOnlyOptimal, Takes};
ghost use Rattle.rm_market.specs.Machine.{start, next_offer, after_turn, turn_of, run, IsClosed, offered_so_far};
ghost use Rattle.rm_market.specs.Laws.{AreWishes};
ghost use Rattle.rm_rounds.specs.Desk.{wishes, desk_state, Leads, Settles, left, one_if_some};

use crate::NoMemory;
use crate::turn::{Doctor, doctor_to_go_on, has_offer, take_turn};
use rm_choice::Holder;
use rm_market::Turn;
use rm_ranks::Lists;
use std::alloc::Global;
use std::marker::Model;

// How many sweeps the doctors make before displaced ones are followed one by one. A sweep reads lists and doctors in the order of
// memory, but looks at every doctor; after so many, few are left to follow.
const SWEEPS: u32 = 8;

/// The doctors' lists of contracts, how far each doctor has come, and the holder to which they offer.
#[derive(Drop)]
pub struct Desk<'a, H: Holder> {
    listed: &'a Lists,
    owners: &'a [u32],
    holder: H,
    doctors: Vec<Doctor>,
}

impl<'a, H: Holder> Model for Desk<'a, H> {
    ghost use Rattle.rm_rounds.specs.Desk.{DeskTold, IsDesk, wishes, state, spent_each, place_each};

    ghost Value = { DeskTold H };

    ghost view = { λ k. record { wishes = wishes k.owners.now k.listed.now; spent = spent_each k.doctors.items; holder = k.holder } };

    ghost invariant = { λ k. IsDesk (H.count k.holder) (H.chosen k.holder) (wishes k.owners.now k.listed.now)
        (state (spent_each k.doctors.items) (H.held k.holder)) (place_each k.doctors.items) };
}

impl<'a, H: Holder> Desk<'a, H> {
    /// A desk where nobody has offered yet. `owners` has the doctor of each contract of the holder, `listed` has per doctor distinct
    /// contracts of his own, best first, and the holder holds nothing. Takes all memory that later calls need.
    pub fn open(
        alloc: Global,
        listed: &'a Lists,
        owners: &'a [u32],
        holder: H,
    ) -> Result<Desk<'a, H>, NoMemory>
    where
        H: Drop,
        requires wishes { AreWishes (H.count holder) (wishes owners.now listed.now) }
        requires empty { H.held holder ≡ [] }
        ensures wishes { IfOk result (λ k. k.wishes ≡ wishes owners.now listed.now) }
        ensures state { IfOk result (λ k. desk_state H.held k ≡ start (wishes owners.now listed.now)) }
        ensures chosen { IfOk result (λ k. H.chosen k.holder ≡ H.chosen holder) }
    {
        // Called for its bound alone: no list is longer than the number of contracts, which fits a u32.
        let _ = holder.contracts();
        let newcomer = Doctor {
            spent: 0,
            place: None,
        };
        let doctors = vec![in alloc; newcomer; listed.len() as usize]?;
        Ok(Desk {
            listed,
            owners,
            holder,
            doctors,
        })
    }

    /// The turn of doctor d, counted from 0: he offers his next contract, and the outcome is the holder's, unless he is held
    /// (`Idle`) or has offered all (`Done`); then nothing changes.
    pub fn offer(&mut self, d: u32) -> Turn
        requires doctor { d < length self.old.wishes.listed }
        ensures state { desk_state H.held self.new ≡ after_turn (H.chosen self.old.holder) self.old.wishes (desk_state H.held self.old) d }
        ensures turn { result ≡ turn_of (H.chosen self.old.holder) self.old.wishes (desk_state H.held self.old) d }
        ensures wishes { self.new.wishes ≡ self.old.wishes }
        ensures chosen { H.chosen self.new.holder ≡ H.chosen self.old.holder }
    {
        take_turn(
            self.listed,
            self.owners,
            &mut self.holder,
            &mut self.doctors,
            d,
        )
    }

    /// Doctors take turns until nobody can offer. Then what is held is the one optimal set, in whatever order they offered.
    pub fn close_all(&mut self)
        ensures reached { (ds : List ℕ) × (desk_state H.held self.new ≡ run (H.chosen self.old.holder) self.old.wishes (desk_state H.held self.old) ds) }
        ensures closed { IsClosed (H.chosen self.new.holder) self.new.wishes (desk_state H.held self.new) }
        ensures optimal { IsOnlyOptimal (Takes (H.chosen self.new.holder)) self.new.wishes (H.held self.new.holder) }
        ensures wishes { self.new.wishes ≡ self.old.wishes }
        ensures chosen { H.chosen self.new.holder ≡ H.chosen self.old.holder }
    {
        let doctors = self.listed.len();
        for _ in 0..SWEEPS {
            self.sweep();
        }
        for d in 0..doctors {
            self.settle(d);
        }
    }

    /// Whether nobody can offer: every doctor is held or has no contract left. Then what is held is the one optimal set. At any
    /// time what is held is chosen of all that was offered, and no refused contract stands in any stable set.
    pub fn closed(&self) -> bool
        ensures closed { IsTrue result ↔ IsClosed (H.chosen self.now.holder) self.now.wishes (desk_state H.held self.now) }
        ensures optimal { IsTrue result → IsOnlyOptimal (Takes (H.chosen self.now.holder)) self.now.wishes (H.held self.now.holder) }
        ensures held { H.held self.now.holder ≡ H.chosen self.now.holder (offered_so_far self.now.wishes (desk_state H.held self.now)) }
        ensures refused { (x : ℕ) (T : List ℕ) → IsIn x (offered_so_far self.now.wishes (desk_state H.held self.now)) → ¬ IsIn x (H.held self.now.holder)
            → IsStable (Takes (H.chosen self.now.holder)) self.now.wishes T → ¬ IsIn x T }
    {
        for d in 0..self.listed.len() {
            if self.can_offer(d) {
                return false;
            }
        }
        true
    }

    /// The held contract of doctor d; None exactly where he isn't held.
    pub fn place(&self, d: u32) -> Option<u32>
        requires doctor { d < length self.now.wishes.listed }
        ensures { result ≡ at self.now.wishes d (H.held self.now.holder) }
    {
        self.doctors[d as usize].place
    }

    // Whether doctor d has a contract to offer at his turn.
    fn can_offer(&self, d: u32) -> bool
        requires doctor { d < length self.now.wishes.listed }
        ensures { result ≡ is_some (next_offer self.now.wishes (desk_state H.held self.now) d) }
    {
        has_offer(self.listed, &self.doctors, d)
    }

    // Lets each doctor in order offer until he is held or has offered all. Displaced doctors wait for their next sweep.
    fn sweep(&mut self)
        ensures reached { Leads (H.chosen self.old.holder) self.old.wishes (desk_state H.held self.old) (desk_state H.held self.new) }
        ensures wishes { self.new.wishes ≡ self.old.wishes }
        ensures chosen { H.chosen self.new.holder ≡ H.chosen self.old.holder }
    {
        for d in 0..self.listed.len() {
            self.offer_until_held(d);
        }
    }

    // Lets d offer until he is held or has offered all. A doctor whom he displaces isn't followed.
    fn offer_until_held(&mut self, d: u32)
        requires doctor { d < length self.old.wishes.listed }
        ensures reached { Leads (H.chosen self.old.holder) self.old.wishes (desk_state H.held self.old) (desk_state H.held self.new) }
        ensures settled { next_offer self.old.wishes (desk_state H.held self.new) d ≡ None }
        ensures wishes { self.new.wishes ≡ self.old.wishes }
        ensures chosen { H.chosen self.new.holder ≡ H.chosen self.old.holder }
    {
        let mut next = Some(d);
        while next == Some(d) {
            next = self.advance(d);
        }
    }

    // Lets d offer until he is held or has offered all, and so each doctor who is put out.
    fn settle(&mut self, d: u32)
        requires doctor { d < length self.old.wishes.listed }
        ensures settled { Settles (H.chosen self.old.holder) self.old.wishes None d (desk_state H.held self.old) (desk_state H.held self.new) }
        ensures wishes { self.new.wishes ≡ self.old.wishes }
        ensures chosen { H.chosen self.new.holder ≡ H.chosen self.old.holder }
    {
        let mut next = Some(d);
        while let Some(e) = next {
            next = self.advance(e);
        }
    }

    // The turn of d, and who is to go on.
    fn advance(&mut self, d: u32) -> Option<u32>
        requires doctor { d < length self.old.wishes.listed }
        ensures settled { Settles (H.chosen self.old.holder) self.old.wishes result d (desk_state H.held self.old) (desk_state H.held self.new) }
        ensures doctor { IfSome result (λ e. e < length self.old.wishes.listed) }
        ensures fewer { left self.old.wishes (desk_state H.held self.new) + one_if_some result ≤ left self.old.wishes (desk_state H.held self.old) }
        ensures wishes { self.new.wishes ≡ self.old.wishes }
        ensures chosen { H.chosen self.new.holder ≡ H.chosen self.old.holder }
    {
        let owners = self.owners;
        let turn = self.offer(d);
        doctor_to_go_on(owners, d, turn)
    }
}

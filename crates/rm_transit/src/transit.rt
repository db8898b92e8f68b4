//! Offers and refusals that travel between doctors and a holder.

ghost use Rattle.std.specs.Prelude.{◌≡◌, ℕ, ◌<◌, List, [], length, IfOk, IsTrue};
ghost use Rattle.rm_sets.specs.Sets.{IsIn};
ghost use Rattle.rm_market.specs.Stable.{IsStable, IsOnlyOptimal, Takes};
ghost use Rattle.rm_market.specs.Laws.{AreWishes};
ghost use Rattle.rm_transit_laws.specs.Transit.{departed, happens, step_of, mark_of, delivered, all_rest};
ghost use Rattle.rm_transit.specs.Travel.{wishes, transit_state, IsEventOf, settled_mark};

use crate::NoMemory;
use crate::moves::{Doctor, Sign, happen};
use rm_choice::Holder;
use rm_ranks::Lists;
use rm_transit_laws::{Event, Mark, Step};
use std::alloc::Global;
use std::marker::Model;

/// The doctors' lists of contracts, how many of them each has sent and what travels or is held of his, and the holder that answers
/// the offers. For an exchange by message, where nothing arrives in a known order and some of it twice.
#[derive(Drop)]
pub struct Transit<'a, H: Holder> {
    listed: &'a Lists,
    owners: &'a [u32],
    holder: H,
    doctors: Vec<Doctor>,
}

impl<'a, H: Holder> Model for Transit<'a, H> {
    ghost use Rattle.rm_transit.specs.Travel.{TransitTold, IsTransit, wishes, state, spent_each, sign_each};

    ghost Value = { TransitTold H };

    ghost view = { λ k. record {
      wishes = wishes k.owners.now k.listed.now;
      spent = spent_each k.doctors.items;
      signs = sign_each k.doctors.items;
      holder = k.holder;
    } };

    ghost invariant = { λ k. IsTransit (H.count k.holder) (H.chosen k.holder) (wishes k.owners.now k.listed.now)
        (state k.doctors.items (H.held k.holder)) };
}

impl<'a, H: Holder> Transit<'a, H> {
    /// Nothing was sent yet. `owners` has the doctor of each contract of the holder, `listed` has per doctor distinct contracts of his
    /// own, best first, and the holder holds nothing. Takes all memory that later calls need.
    pub fn open(
        alloc: Global,
        listed: &'a Lists,
        owners: &'a [u32],
        holder: H,
    ) -> Result<Transit<'a, H>, NoMemory>
    where
        H: Drop,
        requires wishes { AreWishes (H.count holder) (wishes owners.now listed.now) }
        requires empty { H.held holder ≡ [] }
        ensures wishes { IfOk result (λ k. k.wishes ≡ wishes owners.now listed.now) }
        ensures state { IfOk result (λ k. transit_state H.held k ≡ departed (wishes owners.now listed.now)) }
        ensures chosen { IfOk result (λ k. H.chosen k.holder ≡ H.chosen holder) }
    {
        // Called for its bound alone: no list is longer than the number of contracts, which fits a u32.
        let _ = holder.contracts();
        let newcomer = Doctor {
            spent: 0,
            sign: Sign::Empty,
        };
        let doctors = vec![in alloc; newcomer; listed.len() as usize]?;
        Ok(Transit {
            listed,
            owners,
            holder,
            doctors,
        })
    }

    /// One event, of a doctor or a contract counted from 0. `Sent`, `Arrived` with the holder's outcome, and `Returned` come where it
    /// changes something, and `Nothing` exactly where it changes nothing: where a doctor has something that travels or is held, or no
    /// contract left, and where what arrives doesn't travel, so also at each repeated delivery.
    pub fn step(&mut self, event: Event) -> Step
        requires event { IsEventOf self.old.wishes event }
        ensures state { transit_state H.held self.new ≡ happens (H.chosen self.old.holder) self.old.wishes (transit_state H.held self.old) event }
        ensures step { result ≡ step_of (H.chosen self.old.holder) self.old.wishes (transit_state H.held self.old) event }
        ensures wishes { self.new.wishes ≡ self.old.wishes }
        ensures chosen { H.chosen self.new.holder ≡ H.chosen self.old.holder }
    {
        happen(
            self.listed,
            self.owners,
            &mut self.holder,
            &mut self.doctors,
            event,
        )
    }

    /// Where doctor d stands, counted from 0.
    pub fn mark(&self, d: u32) -> Mark
        requires doctor { d < length self.now.wishes.listed }
        ensures { result ≡ mark_of self.now.wishes (transit_state H.held self.now) d }
    {
        let Doctor { spent, sign } = self.doctors[d as usize];
        match sign {
            Sign::Empty => {
                if (spent as usize) < self.listed.list(d).len() {
                    Mark::Free
                } else {
                    Mark::Done
                }
            }
            Sign::Offer(x) => Mark::Offered(x),
            Sign::Held(x) => Mark::Held(x),
            Sign::Refusal(x) => Mark::Refused(x),
        }
    }

    /// Whether nothing travels and no doctor can send. Then what is held is the one optimal set. At any time what is held is chosen of
    /// all delivered offers, and no refused contract stands in any stable set.
    pub fn closed(&self) -> bool
        ensures closed { result ≡ all_rest self.now.wishes (transit_state H.held self.now) }
        ensures optimal { IsTrue result → IsOnlyOptimal (Takes (H.chosen self.now.holder)) self.now.wishes (H.held self.now.holder) }
        ensures held { H.held self.now.holder ≡ H.chosen self.now.holder (delivered self.now.wishes (transit_state H.held self.now)) }
        ensures refused { (x : ℕ) (T : List ℕ) → IsIn x (delivered self.now.wishes (transit_state H.held self.now)) → ¬ IsIn x (H.held self.now.holder)
            → IsStable (Takes (H.chosen self.now.holder)) self.now.wishes T → ¬ IsIn x T }
    {
        for d in 0..self.listed.len() {
            if !is_settled(self.mark(d)) {
                return false;
            }
        }
        true
    }
}

// Whether nothing of a doctor travels, and he can't send.
fn is_settled(mark: Mark) -> bool
    ensures { result ≡ settled_mark mark }
{
    match mark {
        Mark::Done | Mark::Held(_) => true,
        Mark::Free | Mark::Offered(_) | Mark::Refused(_) => false,
    }
}

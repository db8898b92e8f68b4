//! One turn of a doctor.

ghost use Rattle.std.specs.Prelude.{◌≡◌, ℕ, ◌<◌, ◌&&◌, not, nat_lt, [], None, is_some, length, get_or};
ghost use Rattle.rm_market.specs.Machine.{after_turn, turn_of};
ghost use Rattle.rm_market.specs.declared.Outcome.TheVariants as out;
ghost use Rattle.rm_market.specs.declared.Turn.TheVariants as turns;
ghost use Rattle.rm_rounds.specs.Desk.{IsDesk, wishes, state, spent_each, place_each, places_after, going_on};

use rm_choice::{Holder, Outcome};
use rm_market::Turn;
use rm_ranks::Lists;

// How many of his contracts a doctor has offered, and his held contract.
#[derive(Clone, Copy)]
pub(crate) struct Doctor {
    pub(crate) spent: u32,
    pub(crate) place: Option<u32>,
}

// Doctor d offers his next contract, unless he is held or has offered all.
pub(crate) fn take_turn<H: Holder>(
    listed: &Lists,
    owners: &[u32],
    holder: &mut H,
    doctors: &mut [Doctor],
    d: u32,
) -> Turn
    requires desk { IsDesk (H.count holder.old) (H.chosen holder.old) (wishes owners.now listed.now)
        (state (spent_each doctors.old) (H.held holder.old)) (place_each doctors.old) }
    requires doctor { d < length listed.now }
    ensures desk { IsDesk (H.count holder.new) (H.chosen holder.new) (wishes owners.now listed.now)
        (state (spent_each doctors.new) (H.held holder.new)) (place_each doctors.new) }
    ensures state { state (spent_each doctors.new) (H.held holder.new)
        ≡ after_turn (H.chosen holder.old) (wishes owners.now listed.now) (state (spent_each doctors.old) (H.held holder.old)) d }
    ensures turn { result ≡ turn_of (H.chosen holder.old) (wishes owners.now listed.now) (state (spent_each doctors.old) (H.held holder.old)) d }
    ensures chosen { H.chosen holder.new ≡ H.chosen holder.old }
    ensures count { H.count holder.new ≡ H.count holder.old }
{
    let Doctor { spent, place } = doctors[d as usize];
    if place.is_some() {
        return Turn::Idle;
    }
    let list = listed.list(d);
    let k = spent as usize;
    if k >= list.len() {
        return Turn::Done;
    }
    let x = list[k];
    let outcome = holder.offer(x);
    doctors[d as usize].spent = spent + 1;
    note_places(owners, doctors, d, x, outcome);
    Turn::Moved { x, outcome }
}

// Notes who is held after doctor d offered x.
fn note_places(owners: &[u32], doctors: &mut [Doctor], d: u32, x: u32, outcome: Outcome)
    requires doctor { d < length doctors.old }
    requires swapped { (z : ℕ) → outcome ≡ out.Swapped z → z < length owners.now }
    requires owner { (z : ℕ) → outcome ≡ out.Swapped z → get_or owners.now z 0 < length doctors.old }
    ensures places { place_each doctors.new ≡ places_after owners.now (place_each doctors.old) d x outcome }
    ensures spent { spent_each doctors.new ≡ spent_each doctors.old }
{
    match outcome {
        Outcome::Kept => {
            doctors[d as usize].place = Some(x);
        }
        Outcome::Refused => {}
        Outcome::Swapped(z) => {
            doctors[owners[z as usize] as usize].place = None;
            doctors[d as usize].place = Some(x);
        }
    }
}

// Who is to go on after d's turn: he, where his contract was refused, or whoever was put out.
pub(crate) fn doctor_to_go_on(owners: &[u32], d: u32, turn: Turn) -> Option<u32>
    requires swapped { (x z : ℕ) → turn ≡ turns.Moved x (out.Swapped z) → z < length owners.now }
    ensures { result ≡ going_on owners.now d turn }
{
    match turn {
        Turn::Idle | Turn::Done => None,
        Turn::Moved { x: _, outcome } => match outcome {
            Outcome::Kept => None,
            Outcome::Refused => Some(d),
            Outcome::Swapped(z) => Some(owners[z as usize]),
        },
    }
}

// Whether doctor d isn't held and has a contract left.
pub(crate) fn has_offer(listed: &Lists, doctors: &[Doctor], d: u32) -> bool
    requires listed { d < length listed.now }
    requires doctors { d < length doctors.now }
    ensures { result ≡ (not (is_some (get_or (place_each doctors.now) d None))
        && nat_lt (get_or (spent_each doctors.now) d 0) (length (get_or listed.now d []))) }
{
    let Doctor { spent, place } = doctors[d as usize];
    if place.is_some() {
        return false;
    }
    (spent as usize) < listed.list(d).len()
}

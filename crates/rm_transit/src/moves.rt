//! What an event does to the doctors' marks.

ghost use Rattle.std.specs.Prelude.{◌≡◌, ℕ, ◌<◌, ◌^◌, List, [], length, get_or};
ghost use Rattle.rm_market.specs.declared.Outcome.TheVariants as out;
ghost use Rattle.rm_transit_laws.specs.declared.Event.TheVariants as events;
ghost use Rattle.rm_transit_laws.specs.Transit.{happens, step_of, is_offer_of, is_refusal_of};
ghost use Rattle.rm_transit.specs.Travel.{wishes, state, spent_each, sign_each, sign_told, is_unmarked, signs_after, IsTransit, IsEventOf};

use rm_choice::{Holder, Outcome};
use rm_ranks::Lists;
use rm_transit_laws::{Event, Step};

// A doctor's mark: none, or his contract whose offer travels, that is held, or whose refusal travels.
#[derive(Clone, Copy)]
pub(crate) enum Sign {
    Empty,
    Offer(u32),
    Held(u32),
    Refusal(u32),
}

// How many of his contracts a doctor has sent, and his mark.
#[derive(Clone, Copy)]
pub(crate) struct Doctor {
    pub(crate) spent: u32,
    pub(crate) sign: Sign,
}

// The event happens; a repeated or untimely one changes nothing.
pub(crate) fn happen<H: Holder>(
    listed: &Lists,
    owners: &[u32],
    holder: &mut H,
    doctors: &mut [Doctor],
    event: Event,
) -> Step
    requires transit { IsTransit (H.count holder.old) (H.chosen holder.old) (wishes owners.now listed.now) (state doctors.old (H.held holder.old)) }
    requires event { IsEventOf (wishes owners.now listed.now) event }
    ensures transit { IsTransit (H.count holder.new) (H.chosen holder.new) (wishes owners.now listed.now) (state doctors.new (H.held holder.new)) }
    ensures state { state doctors.new (H.held holder.new)
        ≡ happens (H.chosen holder.old) (wishes owners.now listed.now) (state doctors.old (H.held holder.old)) event }
    ensures step { result ≡ step_of (H.chosen holder.old) (wishes owners.now listed.now) (state doctors.old (H.held holder.old)) event }
    ensures chosen { H.chosen holder.new ≡ H.chosen holder.old }
{
    match event {
        Event::Send(d) => send(listed, doctors, d),
        Event::Offer(x) => deliver_offer(owners, holder, doctors, x),
        Event::Refusal(x) => deliver_refusal(owners, doctors, x),
    }
}

// Doctor d sends his next contract, where he has no mark and a contract left.
fn send(listed: &Lists, doctors: &mut [Doctor], d: u32) -> Step
    requires doctor { d < length listed.now }
    requires long { length doctors.old ≡ length listed.now }
    requires few { length (get_or listed.now d []) < 2 ^ 32 }
    ensures state { (chosen : List ℕ → List ℕ) (owners held : List ℕ)
        → state doctors.new held ≡ happens chosen (wishes owners listed.now) (state doctors.old held) (events.Send d) }
    ensures step { (chosen : List ℕ → List ℕ) (owners held : List ℕ)
        → result ≡ step_of chosen (wishes owners listed.now) (state doctors.old held) (events.Send d) }
{
    let Doctor { spent, sign } = doctors[d as usize];
    let list = listed.list(d);
    let k = spent as usize;
    if !is_empty(sign) || k >= list.len() {
        return Step::Nothing;
    }
    let x = list[k];
    doctors[d as usize] = Doctor {
        spent: spent + 1,
        sign: Sign::Offer(x),
    };
    Step::Sent(x)
}

// The offer of x arrives, where it travels: the holder answers it, and what is put out is refused.
fn deliver_offer<H: Holder>(owners: &[u32], holder: &mut H, doctors: &mut [Doctor], x: u32) -> Step
    requires contract { x < length owners.now }
    requires transit { (listed : List (List ℕ))
        × IsTransit (H.count holder.old) (H.chosen holder.old) (wishes owners.now listed) (state doctors.old (H.held holder.old)) }
    ensures state { state doctors.new (H.held holder.new)
        ≡ happens (H.chosen holder.old) (wishes owners.now []) (state doctors.old (H.held holder.old)) (events.Offer x) }
    ensures step { result ≡ step_of (H.chosen holder.old) (wishes owners.now []) (state doctors.old (H.held holder.old)) (events.Offer x) }
    ensures chosen { H.chosen holder.new ≡ H.chosen holder.old }
    ensures count { H.count holder.new ≡ H.count holder.old }
{
    let d = owners[x as usize] as usize;
    if !is_offer(doctors[d].sign, x) {
        return Step::Nothing;
    }
    let outcome = holder.offer(x);
    note_outcome(owners, doctors, x, outcome);
    Step::Arrived(outcome)
}

// Notes what the offer of x did.
fn note_outcome(owners: &[u32], doctors: &mut [Doctor], x: u32, outcome: Outcome)
    requires contract { x < length owners.now }
    requires owner { get_or owners.now x 0 < length doctors.old }
    requires swapped { (z : ℕ) → outcome ≡ out.Swapped z → z < length owners.now }
    requires other { (z : ℕ) → outcome ≡ out.Swapped z → get_or owners.now z 0 < length doctors.old }
    ensures signs { sign_each doctors.new ≡ signs_after owners.now (sign_each doctors.old) x outcome }
    ensures spent { spent_each doctors.new ≡ spent_each doctors.old }
{
    let d = owners[x as usize] as usize;
    match outcome {
        Outcome::Kept => {
            doctors[d].sign = Sign::Held(x);
        }
        Outcome::Refused => {
            doctors[d].sign = Sign::Refusal(x);
        }
        Outcome::Swapped(z) => {
            doctors[owners[z as usize] as usize].sign = Sign::Refusal(z);
            doctors[d].sign = Sign::Held(x);
        }
    }
}

// The refusal of x arrives, where it travels: its doctor has no mark then.
fn deliver_refusal(owners: &[u32], doctors: &mut [Doctor], x: u32) -> Step
    requires contract { x < length owners.now }
    requires owner { get_or owners.now x 0 < length doctors.old }
    ensures state { (chosen : List ℕ → List ℕ) (listed : List (List ℕ)) (held : List ℕ)
        → state doctors.new held ≡ happens chosen (wishes owners.now listed) (state doctors.old held) (events.Refusal x) }
    ensures step { (chosen : List ℕ → List ℕ) (listed : List (List ℕ)) (held : List ℕ)
        → result ≡ step_of chosen (wishes owners.now listed) (state doctors.old held) (events.Refusal x) }
{
    let d = owners[x as usize] as usize;
    if !is_refusal(doctors[d].sign, x) {
        return Step::Nothing;
    }
    doctors[d].sign = Sign::Empty;
    Step::Returned
}

// Whether there is no mark.
fn is_empty(sign: Sign) -> bool
    ensures { result ≡ is_unmarked (sign_told sign) }
{
    match sign {
        Sign::Empty => true,
        Sign::Offer(_) | Sign::Held(_) | Sign::Refusal(_) => false,
    }
}

// Whether the offer of x travels.
fn is_offer(sign: Sign, x: u32) -> bool
    ensures { result ≡ is_offer_of x (sign_told sign) }
{
    match sign {
        Sign::Offer(y) => x == y,
        Sign::Empty | Sign::Held(_) | Sign::Refusal(_) => false,
    }
}

// Whether the refusal of x travels.
fn is_refusal(sign: Sign, x: u32) -> bool
    ensures { result ≡ is_refusal_of x (sign_told sign) }
{
    match sign {
        Sign::Refusal(y) => x == y,
        Sign::Empty | Sign::Offer(_) | Sign::Held(_) => false,
    }
}

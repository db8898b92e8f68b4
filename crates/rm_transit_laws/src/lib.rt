//! Offers and refusals that travel, and arrive in any order.
//! The functions have no code: each carries a theorem for the crates that compute.
#![tactic(auto)]

ghost use Rattle.rm_matching_laws.specs.Results.{OfLawfulChoices};
ghost use Rattle.rm_market_laws.specs.Results.{OfBestChoices};
ghost use Rattle.rm_transit_laws.specs.Results.{ArrivedIsTrue, MarksAreTrue, NothingIsNoChange, TravelsClose, TravelsWell, TravelsWellIn};

pub use rm_market::Outcome;

/// What may happen where offers and refusals travel: a doctor sends his next offer, an offer arrives, a refusal arrives.
#[derive(Clone, Copy, Debug, PartialEq, Eq)]
pub enum Event {
    /// This doctor sends his next offer.
    Send(u32),
    /// The offer of this contract arrives.
    Offer(u32),
    /// The refusal of this contract arrives.
    Refusal(u32),
}

/// Where a doctor stands.
#[derive(Clone, Copy, Debug, PartialEq, Eq)]
pub enum Mark {
    /// Nothing of his travels or is held, and he has a contract left.
    Free,
    /// Nothing of his travels or is held, and he has no contract left.
    Done,
    /// His offer of this contract travels.
    Offered(u32),
    /// This contract of his is held.
    Held(u32),
    /// The refusal of this contract travels.
    Refused(u32),
}

/// What an event did.
#[derive(Clone, Copy, Debug, PartialEq, Eq)]
pub enum Step {
    /// The offer of this contract was sent.
    Sent(u32),
    /// An offer arrived, with this outcome.
    Arrived(Outcome),
    /// A refusal arrived.
    Returned,
    /// Nothing changed.
    Nothing,
}

/// Of all events, in every order and repeated at will: what is held is chosen of all delivered offers, what was refused stands in no stable
/// set, and where nothing travels and nobody can send, the one optimal set is held. So offers may be made by message, without an order of turns.
pub fn offers_in_transit()
    ensures { OfLawfulChoices TravelsWell }
{}

/// In a market, with its best subsets: what is held is the best subset of all delivered offers, and at rest the placement is held.
pub fn offers_in_transit_of_markets()
    ensures { OfBestChoices TravelsWellIn }
{}

/// Whatever has happened, some more events bring everything to rest: nobody waits for ever on what can no longer come.
pub fn offers_come_to_rest()
    ensures { OfLawfulChoices TravelsClose }
{}

/// An event is said to do nothing exactly where it changes nothing, and an offer that arrives to do what it does: for a report of what
/// messages did.
pub fn what_events_do()
    ensures nothing { OfLawfulChoices NothingIsNoChange }
    ensures arrived { OfLawfulChoices ArrivedIsTrue }
{}

/// What a doctor's mark says is so: his offer that travels is the one that he sent last, and a contract of his is held exactly where his
/// mark says which. So a program that keeps marks needs no search through what is held.
pub fn marks_are_true()
    ensures { OfLawfulChoices MarksAreTrue }
{}

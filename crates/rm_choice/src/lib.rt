//! Interfaces with laws: valuations, choices and holders of sets of contracts.
#![tactic(auto)]

ghost use Rattle.std.specs.Prelude.{◌≡◌, ◌<◌, ◌≤◌, ℕ, List, false, length, take};
ghost use Rattle.rm_sets.specs.Sets.{has, IsSetBelow, with_one};
ghost use Rattle.rm_market.specs.Best.{Values, IsValuation, IsChoice};
ghost use Rattle.rm_market.specs.Machine.{IsOutcome};
ghost use Rattle.rm_choice.specs.Size.{Fits, IsAsLarge};

mod choice_holder;
mod laws;
mod one_post;
mod room;

pub use choice_holder::ChoiceHolder;
pub use laws::{lawful_parts_join, path_independence};
pub use one_post::OnePost;
pub use rm_market::Outcome;
pub use room::Room;

/// The want of memory.
pub type NoMemory = std::alloc::AllocError;

/// Feasible sets of contracts, with a worth for each and a tie order. A set of contracts is a strictly ascending list of
/// numbers below the number of contracts.
pub trait Valuation {
    /// How many contracts there are.
    ghost count: { Self → ℕ };

    /// Which sets are feasible, the worth of each, and the contracts in tie order.
    ghost values: { Self → Values };

    /// The number of contracts.
    fn contracts(&self) -> u32
        ensures { result ≡ count self.now };

    /// The empty set and each subset of a feasible set are feasible. Of two feasible sets, a contract that one alone has can be
    /// moved to the other, alone or in exchange, and some contract of the larger set to the smaller one, without loss in the
    /// sum of the worths (M-natural concavity; Kojima, Tamura and Yokoo 2018).
    ghost lawful: { (v : Self) → IsValuation (count v) (values v) };
}

/// What is chosen of each set of contracts, as by a hospital or a region.
pub trait Choice {
    /// How many contracts there are.
    ghost count: { Self → ℕ };

    /// How many nodes the choice counts contracts at.
    ghost node_count: { Self → ℕ };

    /// What is chosen of a set.
    ghost chosen: { Self → List ℕ → List ℕ };

    /// The number of contracts.
    fn contracts(&self) -> u32
        ensures { result ≡ count self.now };

    /// The number of nodes.
    fn nodes(&self) -> u32
        ensures { result ≡ node_count self.now };

    /// Writes what is chosen of the offered contracts to the front of the room's list, ascending, and says how many there are.
    /// The offered contracts are strictly ascending and below the number of contracts.
    fn choose(&self, offered: &[u32], room: &mut Room) -> usize
        requires set { IsSetBelow (count self.now) offered.now }
        requires fits { Fits (count self.now) (node_count self.now) room.old }
        ensures chosen { take result room.new.list ≡ chosen self.now offered.now }
        ensures within { result ≤ length room.new.list }
        ensures room { IsAsLarge room.old room.new };

    /// What is chosen was offered; to leave out what is rejected changes nothing; substitutes; and the law of aggregate demand
    /// (Hatfield and Milgrom 2005, Aygun and Sonmez).
    ghost lawful: { (c : Self) → IsChoice (count c) (chosen c) };
}

/// Contracts in parts, each of which chooses of its own.
pub trait Parts {
    /// How many contracts there are.
    ghost count: { Self → ℕ };

    /// How many parts there are.
    ghost parts: { Self → ℕ };

    /// The part of each contract.
    ghost part: { Self → ℕ → ℕ };

    /// What a part chooses of a set.
    ghost chooses: { Self → ℕ → List ℕ → List ℕ };

    /// The number of contracts.
    fn contracts(&self) -> u32
        ensures { result ≡ count self.now };

    /// Each contract is in one of the parts.
    ghost within: { (p : Self) (x : ℕ) → x < count p → part p x < parts p };
}

/// A set of contracts that is its own choice, to which contracts are offered one at a time.
pub trait Holder {
    /// How many contracts there are.
    ghost count: { Self → ℕ };

    /// The held set.
    ghost held: { Self → List ℕ };

    /// What is chosen of a set.
    ghost chosen: { Self → List ℕ → List ℕ };

    /// The number of contracts.
    fn contracts(&self) -> u32
        ensures { result ≡ count self.now };

    /// Whether contract x is held.
    fn holds(&self, x: u32) -> bool
        requires { x < count self.now }
        ensures { result ≡ has x (held self.now) };

    /// Offers the contract x, which isn't held. Afterwards what is chosen of the held set with x is held: that set, the old one,
    /// or that set without the contract that the outcome names.
    fn offer(&mut self, x: u32) -> Outcome
        requires contract { x < count self.old }
        requires new { has x (held self.old) ≡ false }
        ensures held { held self.new ≡ chosen self.old (with_one (held self.old) x) }
        ensures outcome { IsOutcome (held self.old) x (held self.new) result }
        ensures chosen { chosen self.new ≡ chosen self.old }
        ensures count { count self.new ≡ count self.old };

    /// The laws of a choice.
    ghost lawful: { (h : Self) → IsChoice (count h) (chosen h) };

    /// What is held is a set of contracts.
    ghost is_set: { (h : Self) → IsSetBelow (count h) (held h) };

    /// The held set is its own choice.
    ghost settled: { (h : Self) → chosen h (held h) ≡ held h };
}

#[cfg(test)]
mod tests;

//! The board of a market: its contracts, tie order, nodes and steps.
#![tactic(auto)]

mod board;
mod contracts;
mod doctors;
mod hospitals;
mod keys;
mod listing;
mod orders;
mod ties;
mod wishes;

pub use board::Board;
pub use contracts::{Contracts, NoMemory};
pub use rm_market::BoardFault;
pub use ties::{TieRule, tie_order};
pub use wishes::listed;

#[cfg(test)]
mod tests;

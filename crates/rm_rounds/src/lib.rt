//! Doctors offer their contracts in turn, in any order, to any holder that chooses lawfully.
#![tactic(auto)]

mod desk;
mod turn;

pub use desk::Desk;
pub use rm_market::Turn;

/// The want of memory.
pub type NoMemory = std::alloc::AllocError;

#[cfg(test)]
mod tests;

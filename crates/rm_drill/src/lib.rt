//! What a nation is generated from: the draws of a seed, the seats of its hospitals, and the texts of the hospitals' file and the
//! policy's file.
#![tactic(auto)]

mod draws;
mod files;
mod hospitals;
mod writing;

pub use draws::Draws;
pub use files::{hospitals_text, policy_text};
pub use hospitals::{Seats, draw_seats, hospital_count};
use std::alloc::AllocError;

/// Want of memory.
pub type NoMemory = AllocError;

#[cfg(test)]
mod tests;

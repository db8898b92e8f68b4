//! Doctors offer their contracts by message: offers and refusals travel, and arrive in any order.
#![tactic(auto)]

mod event_file;
mod moves;
mod running;
mod text;
mod transit;

pub use event_file::read_events;
pub use rm_transit_laws::{Event, Mark, Step};
pub use running::{Standing, run_events};
pub use text::transit_text;
pub use transit::Transit;

/// The want of memory.
pub type NoMemory = std::alloc::AllocError;

#[cfg(test)]
mod tests;

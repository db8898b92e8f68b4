//! Names with their numbers, found by keys of 64 bits.
#![tactic(auto)]

mod keys;
mod names;
mod search;
mod texts;

pub use keys::{LEAST_LONG, MOST_SHORT_BYTES, is_short, key_of};
pub use names::{Added, Names};

#[cfg(test)]
mod tests;

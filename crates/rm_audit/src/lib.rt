//! The auditor: it reads a placement that was made elsewhere, and finds whether it is stable.
#![tactic(auto)]

mod blocking;
mod finding;
mod placed;
mod placement;

pub use finding::audit;
pub use placement::read_placement;
pub use rm_market::Finding;

#[cfg(test)]
mod tests;

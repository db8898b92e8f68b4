//! The case of a folder: what its files say, the market that they make, and the placement of that market.
#![tactic(auto)]

mod case;
mod case_regions;
mod choices;
mod compile;
mod fault;
mod folder;
mod load;
mod node_steps;
mod offers;
mod own_file;
mod pair;
mod places;
mod raised;
mod replaced;
mod solve;
mod table_file;
mod turns;

pub use case::{Case, NodeName};
pub use choices::Choices;
pub use fault::{LoadFault, OwnFault};
pub use offers::Offers;
pub use own_file::fetch_own;
pub use pair::Pair;
pub use places::Places;
pub use solve::places_at;

#[cfg(test)]
mod tests;

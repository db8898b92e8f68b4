//! Single changes on a board: the verdict on a choice, its certificate, and a holder that answers each offer by one exchange.
#![tactic(auto)]

mod certificates;
mod fast;
mod holding;
mod leaf;
mod places;
mod prospects;
mod refused;
mod removal;
mod swaps;
mod tournament;
mod verdicts;

pub use certificates::certificate;
pub use fast::FastHolder;
pub use rm_choice::NoMemory;
pub use rm_market::{CertRow, SwapRow, Verdict};
pub use verdicts::certify;

#[cfg(test)]
mod tests;

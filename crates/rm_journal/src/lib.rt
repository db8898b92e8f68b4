//! Journals of a case's offers: what is to be said of one that anybody wrote.
#![tactic(auto)]

mod checking;
mod owning;
mod reading;

pub use checking::verify;
pub use owning::own_journal;
pub use reading::read_journal;
pub use rm_base::NoMemory;
pub use rm_journal_laws::{Check, Entry, Outcome};

#[cfg(test)]
mod tests;

//! The texts that the commands write about a case. `NoMemory` is want of memory.
#![tactic(auto)]

mod certificate;
mod check;
mod counts;
mod finding;
mod journal;
mod pair;
mod placement;
mod report;
mod writing;

pub use certificate::{certificate_text, name_of_hospital};
pub use check::check_text;
pub use finding::finding_text;
pub use journal::{journal_text, verdict_text};
pub use pair::pair_text;
pub use placement::placement_text;
pub use report::prefecture_text;
pub use rm_base::NoMemory;
pub use writing::{close, open_writer, write_row};

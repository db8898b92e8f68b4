//! The policy language: what a policy file says of a country's hospitals, or its first refusal.
#![tactic(auto)]

mod elements;
mod entries;
mod groups;
mod groups_built;
mod hospital_steps;
mod hospitals;
pub mod keys;
mod listed;
mod policy;
mod prefectures;
mod sets;
mod steps;
mod top;
mod values;

pub use policy::Policy;
use rm_base::ReadFault;

/// Why no policy was read: the first refusal of the file, or want of memory.
pub type PolicyFault = ReadFault;

/// What a policy gives for its caps: targets and turns of hospitals, or steps of groups.
#[derive(Clone, Copy, Debug, PartialEq, Eq)]
pub enum Kind {
    Flexible,
    Steps,
}

/// The tie order of contracts: by place in the rank list and then by hospital, by hospital and then by place, or as the policy lists them.
#[derive(Clone, Copy, Debug, PartialEq, Eq)]
pub enum Ties {
    ByRank,
    ByHospital,
    Listed,
}

#[cfg(test)]
mod tests;

// The contracts of each hospital.

ghost use Rattle.std.specs.Prelude.{◌≡◌, ◌+◌, ◌-◌, ◌<◌, [], ◌∷◌, ◌++◌, length, replicate, IfOk, OnOk};
ghost use Rattle.std.specs.Int.{div_ceil};
ghost use Rattle.rm_board.specs.declared.hospitals.TheConstants.{RUN};

use crate::contracts::NoMemory;
use std::alloc::Global;

// How many contracts, one after the other, are a run.
pub const RUN: usize = 64;

// The doctor of each contract, the contracts of hospital 0 first; per hospital its first contract, and at the end the number of
// contracts; and per run the hospital of its first contract, to which the number of hospitals is added once all are there.
#[derive(Drop)]
pub struct ByHospital {
    pub doctors: Vec<u32>,
    pub starts: Vec<u32>,
    pub runs: Vec<u32>,
}

impl ByHospital {
    // No hospital, with room for so many hospitals and contracts.
    pub fn with_capacity(
        alloc: Global,
        hospitals: usize,
        contracts: usize,
    ) -> Result<ByHospital, NoMemory>
        requires { hospitals < 4_294_967_296 }
        ensures doctors { IfOk result (λ b. b.doctors.items ≡ []) }
        ensures starts { IfOk result (λ b. b.starts.items ≡ 0 ∷ []) }
        ensures runs { IfOk result (λ b. b.runs.items ≡ []) }
    {
        let mut starts = Vec::with_capacity(alloc, hospitals + 1)?;
        starts.push(0)?;
        Ok(ByHospital {
            doctors: Vec::with_capacity(alloc, contracts)?,
            starts,
            runs: Vec::with_capacity(alloc, contracts.div_ceil(RUN) + 1)?,
        })
    }

    // Adds the contracts of hospital h, which is the next one, by its rank list.
    pub fn add(&mut self, h: u32, rank: &[u32]) -> Result<(), NoMemory>
        requires few { length self.old.doctors.items + length rank.now < 4_000_000_000 }
        requires runs { length self.old.runs.items ≡ div_ceil (length self.old.doctors.items) RUN }
        ensures doctors { OnOk result (self.new.doctors.items ≡ self.old.doctors.items ++ rank.now) }
        ensures starts { OnOk result (self.new.starts.items ≡ self.old.starts.items ++ (length self.old.doctors.items + length rank.now) ∷ []) }
        ensures runs { OnOk result (self.new.runs.items
            ≡ self.old.runs.items ++ replicate (div_ceil (length self.old.doctors.items + length rank.now) RUN - length self.old.runs.items) h) }
    {
        self.doctors.extend_from_slice(rank)?;
        let end = self.doctors.len();
        self.runs.resize(end.div_ceil(RUN), h)?;
        self.starts.push(end as u32)?;
        Ok(())
    }
}

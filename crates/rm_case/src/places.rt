// The places of doctors.

ghost use Rattle.std.specs.Prelude.{◌≡◌, ◌<◌, length, slice_get, set, replicate, Some, None, IfOk};

use rm_base::NoMemory;
use std::alloc::Global;
use std::marker::Model;

/// The places of doctors: for each doctor, counted from 0, the number of his hospital, or none.
#[derive(Drop)]
pub struct Places {
    places: Vec<Option<u32>>,
}

impl Model for Places {
    ghost use Rattle.std.specs.Prelude.{List, ℕ, Option, ◌<◌, length};

    ghost Value = { List (Option ℕ) };

    ghost view = { λ s. s.places.items };

    ghost invariant = { λ s. length s.places.items < 4_294_967_296 };
}

impl Places {
    /// Places for so many doctors, none of whom has one.
    pub fn empty(alloc: Global, doctors: u32) -> Result<Places, NoMemory>
        ensures { IfOk result (λ places. places ≡ replicate doctors None) }
    {
        let places = vec![in alloc; None; doctors as usize]?;
        Ok(Places { places })
    }

    /// The hospital of doctor d, or none.
    pub fn get(&self, d: u32) -> Option<u32>
        requires { d < length self.now }
        ensures { slice_get self.now d ≡ Some result }
    {
        self.places[d as usize]
    }

    /// Gives doctor d the hospital h, or none. No other place changes.
    pub fn set(&mut self, d: u32, h: Option<u32>)
        requires { d < length self.old }
        ensures { self.new ≡ set self.old d h }
    {
        self.places[d as usize] = h;
    }

    /// How many doctors there are.
    pub fn len(&self) -> u32
        ensures { result ≡ length self.now }
    {
        self.places.len() as u32
    }
}

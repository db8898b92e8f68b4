// Lists of numbers, found by number.

ghost use Rattle.std.specs.Prelude.{◌≡◌, ◌+◌, ◌<◌, ◌≤◌, List, [], ◌∷◌, ◌++◌, length, replicate, get_or, set, insert, OnOk, IfOk};

use rm_lists::Lists as PackedLists;
use std::alloc::{AllocError, Global};
use std::marker::Model;

/// Lists of numbers, each found by its own number.
#[derive(Drop)]
pub struct Lists {
    lists: Vec<Vec<u32>>,
}

impl Model for Lists {
    ghost use Rattle.std.specs.Prelude.{List, ℕ, map};

    ghost Value = { List (List ℕ) };

    ghost view = { λ l. map (λ v. v.items) l.lists.items };
}

impl Lists {
    /// So many empty lists.
    pub fn empty(alloc: Global, count: u32) -> Result<Lists, AllocError>
        ensures { IfOk result (λ l. l ≡ replicate count []) }
    {
        let mut lists = Vec::new(alloc);
        for i in 0..count {
            lists.push(Vec::new(alloc))?;
        }
        Ok(Lists { lists })
    }

    /// The number of lists.
    pub fn len(&self) -> usize
        ensures { result ≡ length self.now }
    {
        self.lists.len()
    }

    /// A list.
    pub fn list(&self, i: u32) -> &[u32]
        requires { i < length self.now }
        ensures { result.now ≡ get_or self.now i [] }
    {
        &self.lists[i as usize]
    }

    /// Puts a number at a place of a list.
    pub fn insert(&mut self, i: u32, place: usize, x: u32) -> Result<(), AllocError>
        requires list { i < length self.old }
        requires place { place ≤ length (get_or self.old i []) }
        ensures { OnOk result (self.new ≡ set self.old i (insert (get_or self.old i []) place x)) }
    {
        let list = &mut self.lists[i as usize];
        list.insert(place, x)?;
        Ok(())
    }

    /// Puts a number at the end of a list.
    pub fn push(&mut self, i: u32, x: u32) -> Result<(), AllocError>
        requires { i < length self.old }
        ensures { OnOk result (self.new ≡ set self.old i (get_or self.old i [] ++ x ∷ [])) }
    {
        let list = &mut self.lists[i as usize];
        list.push(x)?;
        Ok(())
    }

    /// The same lists, in one buffer.
    pub fn packed(&self, alloc: Global) -> Result<PackedLists<u32>, AllocError>
        ensures { IfOk result (λ l. l ≡ self.now) }
    {
        let mut packed = PackedLists::with_capacity(alloc, 0, 0)?;
        for i in 0..self.lists.len() {
            packed.push(&self.lists[i])?;
        }
        Ok(packed)
    }
}

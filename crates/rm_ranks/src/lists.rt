// Finished lists.

ghost use Rattle.std.specs.Prelude.{◌≡◌, ◌<◌, ◌==◌, [], ◌∷◌, ◌++◌, length, get_or, set, All, IfOk, IfSome, OnOk, OnErr};
ghost use Rattle.std.specs.List.{IsDistinct, position};

use rm_lists::Lists as AnyLists;
pub use rm_lists::NoMemory;
use std::alloc::Global;
use std::marker::Model;

/// Lists of distinct numbers, all in one buffer. Lists and places count from 0.
#[derive(Drop)]
pub struct Lists {
    pub(crate) lists: AnyLists<u32>,
}

impl Model for Lists {
    ghost use Rattle.std.specs.Prelude.{List, ℕ, All, ◌==◌};
    ghost use Rattle.std.specs.List.{IsDistinct};

    ghost Value = { List (List ℕ) };

    ghost view = { λ l. l.lists };

    ghost invariant = { λ l. All (IsDistinct ◌==◌) l.lists };
}

impl Lists {
    /// No list, with room for so many lists and items.
    pub fn with_capacity(alloc: Global, lists: u32, items: usize) -> Result<Lists, NoMemory>
        ensures { IfOk result (λ lists. lists ≡ []) }
    {
        Ok(Lists {
            lists: AnyLists::with_capacity(alloc, lists, items)?,
        })
    }

    /// Adds a list of distinct items as the last. There may be 4,294,967,295 lists. Where memory is wanting, the lists are as before.
    pub fn push(&mut self, list: &[u32]) -> Result<(), NoMemory>
        requires few { length self.old < 4_294_967_295 }
        requires distinct { IsDistinct ◌==◌ list.now }
        ensures lists { OnOk result (self.new ≡ self.old ++ list.now ∷ []) }
        ensures unchanged { OnErr result (self.new ≡ self.old) }
    {
        self.lists.push(list)
    }

    /// List i, lent from the buffer.
    pub fn list(&self, i: u32) -> &[u32]
        requires { i < length self.now }
        ensures { result.now ≡ get_or self.now i [] }
    {
        self.lists.list(i)
    }

    /// The place of item j in list i; None exactly where it isn't there.
    pub fn place(&self, i: u32, j: u32) -> Option<u32>
        requires { i < length self.now }
        ensures { result ≡ position (λ x. x == j) (get_or self.now i []) }
    {
        match place_of(self.lists.list(i), j) {
            Some(place) => Some(place as u32),
            None => None,
        }
    }

    /// The number of lists.
    pub fn len(&self) -> u32
        ensures len { result ≡ length self.now }
        ensures distinct { All (IsDistinct ◌==◌) self.now }
    {
        self.lists.len()
    }

    /// The same lists.
    pub fn copy(&self, alloc: Global) -> Result<Lists, NoMemory>
        ensures { IfOk result (λ lists. lists ≡ self.now) }
    {
        Ok(Lists {
            lists: self.lists.copy(alloc)?,
        })
    }

    /// A copy in which list i is replaced by one of distinct items, and no other list is.
    pub fn with(&self, alloc: Global, i: u32, list: &[u32]) -> Result<Lists, NoMemory>
        requires i { i < length self.now }
        requires distinct { IsDistinct ◌==◌ list.now }
        ensures { IfOk result (λ lists. lists ≡ set self.now i list.now) }
    {
        Ok(Lists {
            lists: self.lists.with(alloc, i, list)?,
        })
    }
}

// The place of an item in a list.
fn place_of(list: &[u32], item: u32) -> Option<usize>
    ensures place { result ≡ position (λ x. x == item) list.now }
    ensures within { IfSome result (λ place. place < length list.now) }
{
    list.iter().position(|x| *x == item)
}

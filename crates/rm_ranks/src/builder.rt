// Lists that are built item by item.

ghost use Rattle.std.specs.Prelude.{◌≡◌, ◌<◌, ◌≤◌, ◌==◌, [], ℕ, false, length, get_or, replicate, All, None, IsSome, IfOk, IsTrue, IsFalse};
ghost use Rattle.std.specs.List.{list_any, sum_by};
ghost use Rattle.rm_ranks.specs.Built.{ListsTold};
ghost use Rattle.rm_ranks.specs.Builder.{Begins, Pushes};

use crate::lists::{Lists, NoMemory};
use rm_lists::deal;
use std::alloc::Global;
use std::marker::Model;

/// Why a list was not begun, or an item not added.
#[derive(Clone, Copy, Debug, PartialEq, Eq)]
pub enum ListFault {
    /// The list begun last holds the item.
    Repeated,
    /// The list was begun before, with this mark.
    RowRepeated(u64),
    /// All lists together hold as many items as they may.
    TooMany,
    /// Memory was wanting.
    NoMemory,
}

// No item of a list is seen any more.
fn forget_items(seen: &mut Vec<bool>, list: &[u32])
    requires { All (λ x. x < length seen.old.items) list.now }
    ensures count { length seen.new.items ≡ length seen.old.items }
    ensures gone { (x : ℕ) → IsTrue (get_or seen.new.items x false) → IsTrue (get_or seen.old.items x false) × IsFalse (list_any (λ y. y == x) list.now) }
{
    for k in 0..list.len() {
        seen[list[k] as usize] = false;
    }
}

/// Lists of distinct numbers that are built item by item, one list after the other in any order. A mark, such as the
/// row of a file, is kept for each list that was begun. After a fault the builder is as before.
#[derive(Drop)]
pub struct ListsBuilder {
    items: Vec<u32>,
    // Of each item the list that it stands in.
    keys: Vec<u32>,
    marks: Vec<Option<u64>>,
    // Of each number whether the list begun last has it.
    seen: Vec<bool>,
    at: Option<u32>,
    // How many items there were when that list was begun.
    start: usize,
    limit: u64,
}

impl Model for ListsBuilder {
    ghost use Rattle.std.specs.Prelude.{length};
    ghost use Rattle.rm_lists.specs.Grouping.{dealt};
    ghost use Rattle.rm_ranks.specs.Built.{ListsTold};
    ghost use Rattle.rm_ranks.specs.Builder.{AreBuilt};

    ghost Value = { ListsTold };

    ghost view = { λ b. record {
      lists = dealt (length b.marks.items) b.keys.items b.items.items;
      marks = b.marks.items;
      at = b.at;
      held = length b.items.items;
      items = length b.seen.items;
      limit = b.limit;
    } };

    ghost invariant = { λ b. AreBuilt b.items.items b.keys.items b.marks.items b.seen.items b.at b.start b.limit };
}

impl ListsBuilder {
    /// So many empty lists, none of which is begun. Each item will be below `items`, and all lists together may hold `limit` items.
    pub fn new(alloc: Global, lists: u32, items: u32, limit: u64) -> Result<ListsBuilder, NoMemory>
        ensures { IfOk result (λ b. b ≡
            record { lists = replicate lists []; marks = replicate lists None; at = None; held = 0; items = items; limit = limit }) }
    {
        Ok(ListsBuilder {
            items: Vec::new(alloc),
            keys: Vec::new(alloc),
            marks: vec![in alloc; None; lists as usize]?,
            seen: vec![in alloc; false; items as usize]?,
            at: None,
            start: 0,
            limit,
        })
    }

    /// Begins list i, counted from 0, and keeps its mark. `RowRepeated` comes exactly where it was begun before, with its mark of
    /// then. No other fault comes.
    pub fn row(&mut self, i: u32, mark: u64) -> Result<(), ListFault>
        requires { i < length self.old.lists }
        ensures { Begins self.old i mark self.new result }
    {
        let list = i as usize;
        if let Some(former) = self.marks[list] {
            return Err(ListFault::RowRepeated(former));
        }
        forget_items(&mut self.seen, &self.items[self.start..]);
        self.marks[list] = Some(mark);
        self.at = Some(i);
        self.start = self.items.len();
        Ok(())
    }

    /// Adds an item to the list begun last; one must have been begun. `Repeated` comes exactly where that list holds it, and
    /// else `TooMany` exactly where all lists together hold as many items as they may.
    pub fn push(&mut self, item: u32) -> Result<(), ListFault>
        requires begun { IsSome self.old.at }
        requires item { item < self.old.items }
        ensures { Pushes self.old item self.new result }
    {
        let Some(at) = self.at else {
            unreachable!();
        };
        if self.seen[item as usize] {
            return Err(ListFault::Repeated);
        }
        if self.items.len() as u64 >= self.limit {
            return Err(ListFault::TooMany);
        }
        if self.keys.push(at).is_err() {
            return Err(ListFault::NoMemory);
        }
        if self.items.push(item).is_err() {
            self.keys.truncate(self.items.len());
            return Err(ListFault::NoMemory);
        }
        self.seen[item as usize] = true;
        Ok(())
    }

    /// The lists as built. Where memory is wanting the builder is gone.
    pub fn finish(self, alloc: Global) -> Result<Lists, NoMemory>
        ensures lists { IfOk result (λ lists. lists ≡ self.lists) }
        ensures below { All (All (λ x. x < self.items)) self.lists }
        ensures held { (sum_by length self.lists ≡ self.held) × (self.held ≤ self.limit) }
    {
        Ok(Lists {
            lists: deal(alloc, &self.keys, self.marks.len() as u32, &self.items)?,
        })
    }
}

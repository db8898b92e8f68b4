// Cells, one after another in one buffer of text.

ghost use Rattle.std.specs.Prelude.{◌≡◌, ◌<◌, [], ◌∷◌, ◌++◌, length, get_or, IfOk, OnOk, OnErr};
ghost use Rattle.csv.specs.Records.{AllText, prev};

use std::alloc::{AllocError, Global};
use std::marker::Model;

/// Where a cell or a row starts, which is where the one before it ends.
pub fn start_of(ends: &[u32], i: usize) -> usize
    requires { i < length ends.now }
    ensures { result ≡ prev 0 ends.now i }
{
    if i == 0 {
        return 0;
    }
    ends[i - 1] as usize
}

/// Cells in one buffer. A large table has many and short ones, so the end of each takes four bytes only.
#[derive(Drop)]
pub struct PackedCells {
    // The texts of all cells.
    text: String,
    // Where each cell ends.
    ends: Vec<u32>,
}

impl Model for PackedCells {
    ghost use Rattle.std.specs.Prelude.{List, ℕ, string_bytes};
    ghost use Rattle.csv.specs.Records.{cut_from};
    ghost use Rattle.rm_table.specs.Packed.{ArePackedCells};

    ghost Value = { List (List ℕ) };

    ghost view = { λ p. cut_from 0 p.ends.items (string_bytes p.text) };

    ghost invariant = { λ p. ArePackedCells p.ends.items (string_bytes p.text) };
}

impl PackedCells {
    /// No cell, with room for so many bytes and cells.
    pub fn with_capacity(
        alloc: Global,
        bytes: usize,
        cells: usize,
    ) -> Result<PackedCells, AllocError>
        ensures { IfOk result (λ p. p ≡ []) }
    {
        Ok(PackedCells {
            text: String::with_capacity(alloc, bytes)?,
            ends: Vec::with_capacity(alloc, cells)?,
        })
    }

    /// Each cell is text.
    pub fn are_text(&self)
        ensures { AllText self.now }
    {
        let _text = &self.text;
    }

    /// How many cells there are.
    pub fn len(&self) -> usize
        ensures { result ≡ length self.now }
    {
        self.ends.len()
    }

    /// The cell at a place, lent.
    pub fn get(&self, i: usize) -> &str
        requires { i < length self.now }
        ensures { result.now ≡ get_or self.now i [] }
    {
        &self.text[start_of(&self.ends, i)..self.ends[i] as usize]
    }

    /// Adds a cell. Where memory is wanting, or its end is past what four bytes count, nothing is changed.
    pub fn push(&mut self, text: &str) -> Result<(), AllocError>
        ensures cells { OnOk result (self.new ≡ self.old ++ text.now ∷ []) }
        ensures unchanged { OnErr result (self.new ≡ self.old) }
    {
        let Ok(end) = u32::try_from(self.text.len() + text.len()) else {
            return Err(AllocError);
        };
        self.ends.push(end)?;
        if self.text.push_str(text).is_err() {
            self.ends.pop();
            return Err(AllocError);
        }
        Ok(())
    }
}

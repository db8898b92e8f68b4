// Offers: the contracts of a command's own file.

ghost use Rattle.std.specs.List.{IsDistinct};
ghost use Rattle.std.specs.Prelude.{◌≡◌, ◌==◌, ◌↔◌, ◌<◌, ℕ, length, get_or, None, Some, All, IfOk, IfErr, OnOk};
ghost use Rattle.rm_base.specs.Checks.{checks_of, first_of};
ghost use Rattle.rm_base.specs.Reading.{Reads, Stops};
ghost use Rattle.rm_market.specs.Board.{contract_count};
ghost use Rattle.rm_roster.specs.Cells.{data_rows};
ghost use Rattle.rm_sets.specs.Sets.{IsIn, IsSet};
ghost use Rattle.rm_case.specs.Case.{market};
ghost use Rattle.rm_case.specs.Own.{contracts_in, offer_checks, offer_table_checks, offers_of, row_checks, row_contract};

use crate::case::Case;
use crate::fault::OwnFault;
use rm_base::codes::{
    NOT_CONTRACT, OWN_FILE, REPEATED_CONTRACT, UNKNOWN_DOCTOR, UNKNOWN_HOSPITAL, WRONG_HEADER,
};
use rm_base::{NoMemory, ReadFault};
use rm_roster::wrong_cell;
use rm_table::{Row, Table};
use std::alloc::Global;
use std::marker::Model;

/// The offered contracts of a file, in its order, each once. A contract is its number on the case's board, counted from 0.
#[derive(Drop)]
pub struct Offers {
    contracts: Vec<u32>,
}

impl Model for Offers {
    ghost use Rattle.std.specs.Prelude.{List, ℕ, ◌==◌};
    ghost use Rattle.std.specs.List.{IsDistinct};

    ghost Value = { List ℕ };

    ghost view = { λ o. o.contracts.items };

    ghost invariant = { λ o. IsDistinct ◌==◌ o.contracts.items };
}

impl Offers {
    /// The offers that a table tells: a row names a doctor and a hospital that ranks him, and no two rows name the same two.
    /// `Refused` is the first refusal, of file 5. First comes the header: code 13, with `a` 0 and `b` its first wrong field,
    /// counted from 1. Then come the rows in order, where `a` is the row, counted from 1 after the header: 60, an unknown
    /// doctor, with `b` 1; 61, an unknown hospital, with `b` 2; 65, a hospital that doesn't rank the doctor, with `b` 2; and
    /// 66, a contract of a former row, which is `b`. `NoMemory` is want of memory.
    pub fn read(alloc: Global, case: &Case, table: &Table) -> Result<Offers, OwnFault>
        ensures reads { Reads (first_of (offer_table_checks case.now table.now)) (offers_of case.now table.now) result }
        ensures below { IfOk result (λ offers. All (λ x. x < contract_count (market case.now).board) offers) }
    {
        match wrong_cell(table, &["doctor", "hospital"]) {
            Some(field) => Err(ReadFault::refused(WRONG_HEADER, OWN_FILE, 0, field)),
            None => Offers::read_rows(alloc, case, table),
        }
    }

    // The offers that the rows after the header tell.
    fn read_rows(alloc: Global, case: &Case, table: &Table) -> Result<Offers, OwnFault>
        ensures reads { Reads (first_of (checks_of (offer_checks case.now) (data_rows table.now))) (contracts_in case.now (data_rows table.now)) result }
        ensures below { IfOk result (λ offers. All (λ x. x < contract_count (market case.now).board) offers) }
    {
        let Ok(mut rows) = vec![in alloc; None; case.board().contracts() as usize] else {
            return Err(OwnFault::NoMemory);
        };
        let mut contracts = Vec::new(alloc);
        for i in 1..table.rows() {
            let x = match read_offer(case, &table.row(i), i as u64, &rows) {
                Ok(x) => x,
                Err(fault) => return Err(fault),
            };
            rows[x as usize] = Some(i as u64);
            if contracts.push(x).is_err() {
                return Err(OwnFault::NoMemory);
            }
        }
        Ok(Offers { contracts })
    }

    /// The contracts, in the order of the file.
    pub fn contracts(&self) -> &[u32]
        ensures contracts { result.now ≡ self.entry.now }
        ensures once { IsDistinct ◌==◌ self.entry.now }
    {
        &self.contracts
    }

    /// The same contracts, ascending.
    pub fn ascending(&self, alloc: Global) -> Result<Vec<u32>, NoMemory>
        ensures set { IfOk result (λ v. IsSet v.items) }
        ensures same { IfOk result (λ v. (x : ℕ) → IsIn x v.items ↔ IsIn x self.now) }
    {
        let mut contracts = Vec::new(alloc);
        contracts.extend_from_slice(&self.contracts)?;
        contracts.sort_unstable();
        Ok(contracts)
    }
}

// The contract that row i names, which no former row has. Each contract has its former row, if there is one.
fn read_offer(case: &Case, row: &Row<'_>, i: u64, former: &[Option<u64>]) -> Result<u32, OwnFault>
    requires { length former.now ≡ contract_count (market case.now).board }
    ensures passes { OnOk result (first_of (row_checks case.now i (λ x. get_or former.now x None) row.now) ≡ None) }
    ensures contract { IfOk result (λ x. (row_contract case.now row.now ≡ Some x) × (x < length former.now) × (get_or former.now x None ≡ None)) }
    ensures stops { IfErr result (λ e. Stops (first_of (row_checks case.now i (λ x. get_or former.now x None) row.now)) e) }
{
    let roster = case.roster();
    let Some(d) = roster.doctors().find(row.cell(0)) else {
        return Err(ReadFault::refused(UNKNOWN_DOCTOR, OWN_FILE, i, 1));
    };
    let Some(h) = roster.hospitals().find(row.cell(1)) else {
        return Err(ReadFault::refused(UNKNOWN_HOSPITAL, OWN_FILE, i, 2));
    };
    let Some(x) = case.board().find(d, h) else {
        return Err(ReadFault::refused(NOT_CONTRACT, OWN_FILE, i, 2));
    };
    match former[x as usize] {
        Some(row) => Err(ReadFault::refused(REPEATED_CONTRACT, OWN_FILE, i, row)),
        None => Ok(x),
    }
}

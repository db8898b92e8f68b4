// The text of `report`: the placement by prefectures.

ghost use Rattle.std.specs.Prelude.{IfOk};
ghost use Rattle.rm_top.specs.Answers.{IsReportText};

use crate::NoMemory;
use rm_case::Case;
use rm_report::prefecture_text;
use std::alloc::Global;

/// The text of the report of a case's placement.
pub fn report_text(alloc: Global, case: &Case) -> Result<Vec<u8>, NoMemory>
    ensures { IfOk result (λ text. IsReportText case.now text.items) }
{
    let places = case.solve(alloc)?;
    prefecture_text(alloc, case, &places)
}

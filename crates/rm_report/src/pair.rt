// The text of two placements side by side.

ghost use Rattle.std.specs.Prelude.{◌≡◌, IfOk};
ghost use Rattle.rm_report.specs.Texts.{ArePlaces, pair_text};

use crate::placement::place_name;
use crate::writing::{close, open_writer, write_row};
use rm_base::NoMemory;
use rm_case::{Case, Pair};
use std::alloc::Global;

// A guess at the bytes of a row, by which the text's room is taken at once.
const ROW_BYTES: usize = 24;

/// The text of two placements, as comma-separated cells: the header `doctor,declared,replaced`, and then a row for each doctor in his
/// order, with his name and the names of his two hospitals, where a cell is empty if he has none. Each placement has one place per
/// doctor, and each place is the number of a hospital of the case.
pub fn pair_text(alloc: Global, case: &Case, pair: &Pair) -> Result<Vec<u8>, NoMemory>
    requires declared { ArePlaces case.now pair.now.declared }
    requires replaced { ArePlaces case.now pair.now.replaced }
    ensures { IfOk result (λ text. text.items ≡ pair_text case.now pair.now.declared pair.now.replaced) }
{
    let doctors = case.roster().doctors();
    let mut writer = open_writer(alloc, ROW_BYTES * (doctors.len() as usize + 1))?;
    write_row(&mut writer, &[b"doctor", b"declared", b"replaced"])?;
    for d in 0..doctors.len() {
        let doctor = doctors.name(d);
        let declared = place_name(case, &pair.declared, d);
        let replaced = place_name(case, &pair.replaced, d);
        write_row(
            &mut writer,
            &[doctor.as_bytes(), declared.as_bytes(), replaced.as_bytes()],
        )?;
    }
    let text = close(writer)?;
    Ok(text)
}

// The text of a placement.

ghost use Rattle.std.specs.Prelude.{◌≡◌, ◌<◌, length, IfOk};
ghost use Rattle.rm_report.specs.Texts.{AreHospitals, place_name, placement_text};

use crate::writing::{close, open_writer, write_row};
use rm_base::NoMemory;
use rm_case::{Case, Places};
use std::alloc::Global;

// A guess at the bytes of a row, by which the text's room is taken at once.
const ROW_BYTES: usize = 16;

/// The name of the hospital where doctor d is placed, or nothing.
pub fn place_name<'a>(case: &'a Case, places: &Places, d: u32) -> &'a str
    requires doctor { d < length places.now }
    requires hospitals { AreHospitals (length case.now.roster.hospitals) places.now }
    ensures { result.now ≡ place_name case.entry.now places.now d }
{
    match places.get(d) {
        Some(h) => case.roster().hospitals().name(h),
        None => "",
    }
}

/// The text of a placement, as comma-separated cells: the header `doctor,hospital`, and then a row for each doctor in his order,
/// with his name and his hospital's, or an empty cell. There is one place per doctor, and each is the number of a hospital of the
/// case.
pub fn placement_text(alloc: Global, case: &Case, places: &Places) -> Result<Vec<u8>, NoMemory>
    requires doctors { length places.now ≡ length case.now.roster.doctors }
    requires hospitals { AreHospitals (length case.now.roster.hospitals) places.now }
    ensures { IfOk result (λ text. text.items ≡ placement_text case.now places.now) }
{
    let mut writer = open_writer(alloc, ROW_BYTES * (places.len() as usize + 1))?;
    write_row(&mut writer, &[b"doctor", b"hospital"])?;
    let doctors = case.roster().doctors();
    for d in 0..places.len() {
        let doctor = doctors.name(d);
        let hospital = place_name(case, places, d);
        write_row(&mut writer, &[doctor.as_bytes(), hospital.as_bytes()])?;
    }
    let text = close(writer)?;
    Ok(text)
}

// That memory is found for the seats of a few hospitals, and for the texts about them.

use super::*;
use std::alloc::Global;
use std::test::Fail;

// Whether the seats of three hospitals, and the draw after them, are those of the seed 1,234,567.
fn is_drawn(alloc: Global) -> Result<bool, NoMemory> {
    let (seats, mut draws) = draw_seats(alloc, 1_234_567, 3)?;
    let next = draws.next();
    Ok(
        seats.capacities.as_slice() == [8, 4, 2].as_slice()
            && seats.targets.as_slice() == [7, 1, 0].as_slice()
            && next == 10_895_525_637_215_051_397,
    )
}

// Whether the texts about the first three hospitals of the seed 1 are so.
fn are_written(alloc: Global) -> Result<bool, NoMemory> {
    let seats = Seats {
        capacities: vec![in alloc; 6, 1, 2]?,
        targets: vec![in alloc; 0, 1, 2]?,
    };
    let hospitals = hospitals_text(alloc, &seats)?;
    let policy = policy_text(alloc, &seats)?;
    Ok(
        hospitals.as_slice()
            == b"hospital,prefecture,capacity,target\nH00001,P01,6,0\nH00002,P02,1,1\nH00003,P03,2,2\n".as_slice()
            && policy.starts_with(
                b"kind = \"flexible\"\nversion = 1\n\n[[prefecture]]\ncap = 3\nname = \"P01\"\n".as_slice(),
            ),
    )
}

#[test]
fn draws_seats(rt: HostRuntime) -> Result<(), Fail> {
    assert!(rt; is_drawn(rt.alloc())?);
    Ok(())
}

#[test]
fn writes_texts(rt: HostRuntime) -> Result<(), Fail> {
    assert!(rt; are_written(rt.alloc())?);
    Ok(())
}

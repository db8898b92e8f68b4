// Runs at their limits.

use super::*;
use std::test::Fail;

fn run(value: i64, fall: i64, count: i64) -> Run {
    Run { value, fall, count }
}

// Whether runs are refused with this fault.
fn refused(alloc: Global, runs: &[Run], fault: StepFault) -> bool {
    match Steps::check(alloc, runs) {
        Ok(_) => false,
        Err(found) => found == fault,
    }
}

// Whether runs, and their copy, have this k-th step and this sum of the first k steps.
fn taken(alloc: Global, runs: &[Run], k: u32, step: Option<i64>, total: i128) -> bool {
    let Ok(steps) = Steps::check(alloc, runs) else {
        return false;
    };
    let Ok(copy) = steps.copy(alloc) else {
        return false;
    };
    copy.cap() == steps.cap()
        && steps.step(k) == step
        && copy.step(k) == step
        && steps.total(k) == total
}

#[test]
fn refuses_runs(rt: HostRuntime) -> Result<(), Fail> {
    let alloc = rt.alloc();
    assert!(rt;
        refused(
            alloc,
            &[run(3, 0, 2), run(5, 0, 1)],
            StepFault::NotConcave(2)
        )
    );
    assert!(rt; refused(alloc, &[run(1_000_000_001, 0, 1)], StepFault::Range(1)));
    assert!(rt; refused(alloc, &[run(0, 0, 0)], StepFault::Range(1)));
    assert!(rt;
        refused(
            alloc,
            &[run(0, 0, 1_000_000), run(9, 0, 1)],
            StepFault::Range(2)
        )
    );
    assert!(rt; refused(alloc, &[run(0, -1, 2)], StepFault::NotConcave(1)));
    assert!(rt;
        refused(
            alloc,
            &[run(i64::MIN, i64::MIN, i64::MIN)],
            StepFault::Range(1)
        )
    );
    assert!(rt; refused(alloc, &[run(0, i64::MAX, 2)], StepFault::Range(1)));
    assert!(rt;
        refused(
            alloc,
            &[run(5, -3, 1), run(6, 0, 1)],
            StepFault::NotConcave(2)
        )
    );
    Ok(())
}

#[test]
fn takes_runs(rt: HostRuntime) -> Result<(), Fail> {
    let alloc = rt.alloc();
    assert!(rt; taken(alloc, &[], 1, None, 0));
    assert!(rt; taken(alloc, &[run(4, 2, 3)], 3, Some(0), 6));
    assert!(rt; taken(alloc, &[run(4, 2, 3)], 4, None, 6));
    assert!(rt;
        taken(
            alloc,
            &[run(4, 2, 3), run(0, 0, 2), run(-5, 1, 2)],
            6,
            Some(-5),
            1
        )
    );
    assert!(rt;
        taken(
            alloc,
            &[run(7, i64::MIN, 1), run(7, i64::MAX, 1)],
            2,
            Some(7),
            14
        )
    );
    assert!(rt;
        taken(
            alloc,
            &[run(1_000_000_000, 2_000, 1_000_000)],
            1_000_000,
            Some(-999_998_000),
            1_000_000_000
        )
    );
    let flat = Steps::flat(alloc, 3)?;
    assert_eq!(rt; flat.cap(), 3);
    assert_eq!(rt; flat.step(3), Some(0));
    assert_eq!(rt; flat.step(4), None);
    Ok(())
}

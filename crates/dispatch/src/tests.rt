//! A run of two tasks in both modes.
use crate::{Run, Ticked};
use policy::Fixed;
use std::test::Fail;
use table::{Mode, Name, PolicyCode, Refusal, Table, Task};

// A short task of rank 1 with this period and a long one of rank 2.
pub(crate) fn two(policy: PolicyCode, mode: Mode, period: u32) -> Result<Table, Fail> {
    let short = Task {
        cost: 1,
        period,
        deadline: period,
        rank: 1,
        name: Name::single(),
    };
    let long = Task {
        cost: 3,
        period: 10,
        deadline: 10,
        rank: 2,
        name: Name::single(),
    };
    Table::new(policy, mode, 0, &[short, long]).ok_or_else(|| Fail::new("no table"))
}

// The tick ran this job and did not finish it.
pub(crate) fn ran(task: usize, release: u32) -> Result<Ticked, Refusal> {
    Ok(Ticked::Ran { task, release })
}

// The tick finished this job.
pub(crate) fn finished(task: usize, release: u32, response: u32) -> Result<Ticked, Refusal> {
    Ok(Ticked::Finished {
        task,
        release,
        response,
    })
}

#[test]
fn displaced(rt: HostRuntime) -> Result<(), Fail> {
    let mut run = Run::new(Fixed, &two(PolicyCode::Fixed, Mode::Preemptive, 4)?);
    assert_eq!(rt; run.tick(false), Ok(Ticked::Idle));
    assert_eq!(rt; run.release(1), Ok(1));
    assert_eq!(rt; run.tick(false), ran(1, 1));
    assert_eq!(rt; run.release(0), Ok(2));
    assert_eq!(rt; run.tick(false), finished(0, 2, 1));
    assert_eq!(rt; run.tick(false), ran(1, 1));
    assert_eq!(rt; run.tick(false), finished(1, 1, 4));
    Ok(())
}

#[test]
fn held(rt: HostRuntime) -> Result<(), Fail> {
    let mut run = Run::new(Fixed, &two(PolicyCode::Fixed, Mode::NonPreemptive, 4)?);
    assert_eq!(rt; run.release(1), Ok(0));
    assert_eq!(rt; run.tick(false), ran(1, 0));
    assert_eq!(rt; run.release(0), Ok(1));
    assert_eq!(rt; run.release(0), Err(Refusal::TooSoon { task: 0 }));
    assert_eq!(rt; run.release(2), Err(Refusal::NoTaskToRun { task: 2 }));
    assert_eq!(rt; run.tick(false), ran(1, 0));
    assert_eq!(rt; run.tick(false), finished(1, 0, 3));
    assert_eq!(rt; run.tick(false), finished(0, 1, 3));
    Ok(())
}

//! A run over the last ticks of the clock: every call but tick goes on at 4,000,000,000.
use super::Run;
use crate::replies::{Counts, Ticked};
use crate::station::Station;
use crate::tests::{finished, ran, two};
use policy::Deadline;
use std::process::Abort;
use std::test::Fail;
use table::{Mode, PolicyCode, Refusal};

// The counts that a look answers.
fn counts(
    accepted: u32,
    finished: u32,
    waiting: u32,
    missed: u32,
    longest: u32,
) -> Result<Counts, Refusal> {
    Ok(Counts {
        accepted,
        finished,
        waiting,
        missed,
        longest,
    })
}

// A run of a short task and a long one, four ticks before the last time.
fn late(mode: Mode) -> Result<Run<Deadline>, Fail> {
    let table = two(PolicyCode::Deadline, mode, 3)?;
    Ok(Run {
        policy: Deadline,
        station: Station::late(&table),
    })
}

// Up to the last time: the long job runs, waits for the short one, and ends at 4,000,000,000, 4 ticks after its release.
fn last_ticks(rt: &impl Abort, run: &mut Run<Deadline>) {
    assert_eq!(rt; run.release(1), Ok(3_999_999_996));
    assert_eq!(rt; run.tick(false), ran(1, 3_999_999_996));
    assert_eq!(rt; run.release(0), Ok(3_999_999_997));
    assert_eq!(rt; run.tick(false), finished(0, 3_999_999_997, 1));
    assert_eq!(rt; run.tick(false), ran(1, 3_999_999_996));
    assert_eq!(rt; run.tick(false), finished(1, 3_999_999_996, 4));
}

#[test]
fn at_the_last_time(rt: HostRuntime) -> Result<(), Fail> {
    let mut run = late(Mode::Preemptive)?;
    last_ticks(&rt, &mut run);
    assert_eq!(rt; run.tick(false), Err(Refusal::TimeOver));
    assert_eq!(rt; run.look(0), counts(1, 1, 0, 0, 1));
    assert_eq!(rt; run.look(1), counts(1, 1, 0, 0, 4));
    assert_eq!(rt; run.release(0), Ok(4_000_000_000));
    assert_eq!(rt; run.release(0), Err(Refusal::TooSoon { task: 0 }));
    assert_eq!(rt; run.release(1), Err(Refusal::TooSoon { task: 1 }));
    assert_eq!(rt; run.release(2), Err(Refusal::NoTaskToRun { task: 2 }));
    assert_eq!(rt; run.tick(false), Err(Refusal::TimeOver));
    assert_eq!(rt; run.look(0), counts(2, 1, 1, 0, 1));
    assert_eq!(rt; run.look(2), Err(Refusal::NoTaskToRun { task: 2 }));
    Ok(())
}

// A job that has begun stays unfinished at the last time, and no call takes it further.
#[test]
fn begun_at_the_last_time(rt: HostRuntime) -> Result<(), Fail> {
    let mut run = late(Mode::NonPreemptive)?;
    assert_eq!(rt; run.tick(false), Ok(Ticked::Idle));
    assert_eq!(rt; run.tick(false), Ok(Ticked::Idle));
    assert_eq!(rt; run.release(1), Ok(3_999_999_998));
    assert_eq!(rt; run.tick(false), ran(1, 3_999_999_998));
    assert_eq!(rt; run.release(0), Ok(3_999_999_999));
    assert_eq!(rt; run.tick(false), ran(1, 3_999_999_998));
    assert_eq!(rt; run.tick(false), Err(Refusal::TimeOver));
    assert_eq!(rt; run.look(0), counts(1, 0, 1, 0, 0));
    assert_eq!(rt; run.look(1), counts(1, 0, 1, 0, 0));
    Ok(())
}

//! The policies on one small table.
ghost use Rattle.std.specs.Prelude.{◌≡◌, Some, None};
ghost use Rattle.table.specs.Model.{content};
ghost use Rattle.table.specs.Rules.{task_count};

use crate::{Arrival, Deadline, Fixed, Job, Policy, Reach, pile_ahead};
use std::test::Fail;
use table::{Mode, PolicyCode, Table, Task};

fn task(deadline: u32, rank: u8) -> Task {
    Task {
        period: 10,
        deadline,
        rank,
        ..Task::fresh()
    }
}

// Three tasks with deadlines 8, 10 and 10, and ranks 3, 2 and 1.
fn three() -> Option<Table>
    ensures { elim result [ Some t ↦ task_count (content t) ≡ 3 | None ↦ Unit {0} ] }
{
    Table::new(
        PolicyCode::Fixed,
        Mode::Preemptive,
        0,
        &[task(8, 3), task(10, 2), task(10, 1)],
    )
}

#[test]
fn orders(rt: HostRuntime) -> Result<(), Fail> {
    let Some(table) = three() else {
        return Err(Fail::new("no table"));
    };
    let early = Job {
        task: 1,
        release: 3,
    };
    let late = Job {
        task: 0,
        release: 5,
    };
    assert!(rt; Fixed.ahead(&table, early, late));
    assert!(rt; Deadline.ahead(&table, late, early));
    assert!(rt; Arrival.ahead(&table, early, late));
    assert!(rt; pile_ahead(&table, 1, 3, late, early));
    assert!(rt; !Fixed.ahead(&table, early, early));
    Ok(())
}

#[test]
fn outside(rt: HostRuntime) -> Result<(), Fail> {
    let Some(table) = three() else {
        return Err(Fail::new("no table"));
    };
    let early = Job {
        task: 0,
        release: -1,
    };
    let before = Job {
        task: 0,
        release: -2,
    };
    let none = Job {
        task: 3,
        release: 9,
    };
    assert!(rt; !Arrival.ahead(&table, before, early));
    assert!(rt; !Arrival.ahead(&table, early, none));
    Ok(())
}

#[test]
fn reaches(rt: HostRuntime) -> Result<(), Fail> {
    let Some(table) = three() else {
        return Err(Fail::new("no table"));
    };
    assert_eq!(rt; Deadline.reach(&table, 1, 0), Reach::Within(2));
    assert_eq!(rt; Deadline.reach(&table, 0, 1), Reach::Within(-3));
    assert_eq!(rt; Deadline.reach(&table, 2, 2), Reach::Within(0));
    assert_eq!(rt; Deadline.reach(&table, 3, 3), Reach::Never);
    Ok(())
}

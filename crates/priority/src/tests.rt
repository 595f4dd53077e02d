//! The assignment on small tables.
use crate::assign_priorities;
use table::{Mode, PolicyCode, Refusal, Table, Task};

fn task(cost: u32, period: u32, deadline: u32, rank: u8) -> Task {
    Task {
        cost,
        period,
        deadline,
        rank,
        ..Task::fresh()
    }
}

// The new ranks of the first three tasks, as far as there are three; none where the tasks make no table.
fn outcome(mode: Mode, tasks: &[Task]) -> Option<Result<[Option<u8>; 3], Refusal>> {
    let table = Table::new(PolicyCode::Deadline, mode, 0, tasks)?;
    let mut place = Table::fresh();
    let assigned = assign_priorities(&table, &mut place);
    Some(assigned.map(|()| [0, 1, 2].map(|at| place.task(at).map(|task| task.rank))))
}

#[test]
fn a_pair(rt: HostRuntime) {
    let pair = [task(2, 5, 5, 2), task(4, 7, 7, 1)];
    assert_eq!(rt;
        outcome(Mode::NonPreemptive, &pair),
        Some(Ok([Some(1), Some(2), None]))
    );
    assert_eq!(rt;
        outcome(Mode::Preemptive, &pair),
        Some(Err(Refusal::RankUnfilled { rank: 2 }))
    );
}

#[test]
fn three_tasks(rt: HostRuntime) {
    let three = [task(3, 5, 5, 3), task(2, 10, 6, 1), task(1, 10, 7, 2)];
    assert_eq!(rt;
        outcome(Mode::NonPreemptive, &three),
        Some(Ok([Some(1), Some(3), Some(2)]))
    );
    assert_eq!(rt;
        outcome(Mode::Preemptive, &three),
        Some(Err(Refusal::RankUnfilled { rank: 3 }))
    );
}

#[test]
fn overload(rt: HostRuntime) {
    let over = [task(2, 2, 2, 1), task(1, 2, 2, 2)];
    assert_eq!(rt;
        outcome(Mode::Preemptive, &over),
        Some(Err(Refusal::NoBusyPeriod))
    );
}

//! The policy of `classes` in both modes.
use crate::playing::{counts, first_difference, response_at, task, unattained};
use analysis::{Judgement, Row, Verdict, judge};
use classes::{Classes, Member};
use dispatch::Run;
use std::test::Fail;
use table::{MOST_TASKS, Mode, PolicyCode, Refusal, Table};

// Task 0 has the given deadline.
fn four(mode: Mode, deadline: u32) -> Option<Table> {
    let tasks = [
        task(3, 12, deadline, 1),
        task(2, 8, 12, 2),
        task(1, 6, 6, 3),
        task(4, 24, 24, 4),
    ];
    Table::new(PolicyCode::Fixed, mode, 0, &tasks)
}

// Task 2 is of class 0, tasks 0 and 1 of class 1 with offsets 5 and 2, task 3 of class 2. The offset 9 of task 2 decides nothing: it is alone in its class.
fn policy() -> Classes {
    let mut members = [Member::default(); MOST_TASKS];
    members[0] = Member {
        class: 1,
        offset: 5,
    };
    members[1] = Member {
        class: 1,
        offset: 2,
    };
    members[2] = Member {
        class: 0,
        offset: 9,
    };
    members[3] = Member {
        class: 2,
        offset: 0,
    };
    Classes::new(members)
}

// 0: task 0 is of a lower class than task 3.
// 2: task 1 has 2 + 2, task 0 has 0 + 5, so the later release is ahead.
// 3: task 2 displaces both; then task 1, task 0 and, at 6, task 3 go on.
// 15: task 1 has 15 + 2, task 0 has 12 + 5: a tie, and the lower number is ahead.
// 25, 28, 29: task 3 waits for whatever comes.
#[test]
fn displacing(rt: HostRuntime) -> Result<(), Fail> {
    let Some(table) = four(Mode::Preemptive, 12) else {
        return Err(Fail::new("no table"));
    };
    let mut run = Run::new(policy(), &table);
    let lines: [&[u8]; 4] = [
        b"*#...6......^##4.........*#3....",
        b"..*.3..........^#3..........*.3.",
        b"...1........1................1..",
        b"^.....###A..............*......#",
    ];
    assert_eq!(rt; first_difference(&mut run, &lines, 32), None);
    assert_eq!(rt; run.look(0), Ok(counts(3, 3, 0, 0, 6)));
    assert_eq!(rt; run.look(1), Ok(counts(3, 3, 0, 0, 3)));
    assert_eq!(rt; run.look(2), Ok(counts(3, 3, 0, 0, 1)));
    assert_eq!(rt; run.look(3), Ok(counts(2, 1, 1, 0, 10)));
    assert_eq!(rt; run.look(4), Err(Refusal::NoTaskToRun { task: 4 }));
    Ok(())
}

// The same releases. 2: task 0 is begun and runs to its end. 3: task 2 before task 1, by class.
// 24: task 3 is alone, begins, and holds until 28, where tasks 0 and 1 have 25 + 5 and 28 + 2: a tie.
// 29: task 0 is begun, so task 2 waits until 31.
#[test]
fn holding(rt: HostRuntime) -> Result<(), Fail> {
    let Some(table) = four(Mode::NonPreemptive, 12) else {
        return Err(Fail::new("no table"));
    };
    let mut run = Run::new(policy(), &table);
    let lines: [&[u8]; 4] = [
        b"*#3.........^##4.........^..##6.",
        b"..^.#4.........^#3..........^...",
        b"...1........1................^.3",
        b"^.....###A..............*##4....",
    ];
    assert_eq!(rt; first_difference(&mut run, &lines, 32), None);
    assert_eq!(rt; run.look(0), Ok(counts(3, 3, 0, 0, 6)));
    assert_eq!(rt; run.look(1), Ok(counts(3, 2, 1, 0, 4)));
    assert_eq!(rt; run.look(2), Ok(counts(3, 3, 0, 0, 3)));
    assert_eq!(rt; run.look(3), Ok(counts(2, 2, 0, 0, 10)));
    Ok(())
}

// With a deadline of 5 the response 6 of the first course is a miss, and the judgement knew.
#[test]
fn late(rt: HostRuntime) -> Result<(), Fail> {
    let Some(table) = four(Mode::Preemptive, 5) else {
        return Err(Fail::new("no table"));
    };
    let mut rows = [Row::default(); 4];
    assert_eq!(rt;
        judge(&policy(), &table, &mut rows),
        Ok(Judgement {
            busy_period: 20,
            verdict: Verdict::Late { task: 0 }
        })
    );
    let mut run = Run::new(policy(), &table);
    let lines: [&[u8]; 4] = [b"*#...6", b"..*.3.", b"...1..", b"^....."];
    assert_eq!(rt; first_difference(&mut run, &lines, 6), None);
    assert_eq!(rt; run.look(0), Ok(counts(1, 1, 0, 1, 6)));
    Ok(())
}

// All release at 0. Task 2 is first; task 1 with 0 + 2 is before task 0 with 0 + 5; so these end at 1, 3 and 6.
// Task 3 waits for all: 1 + 2 + 3 and its own 4, then 1 at 6, 2 at 8, 3 + 1 at 12, 2 at 16 and 1 at 18. It ends at 20, with the busy period.
#[test]
fn rows_displacing(rt: HostRuntime) -> Result<(), Fail> {
    let Some(table) = four(Mode::Preemptive, 12) else {
        return Err(Fail::new("no table"));
    };
    let mut rows = [Row::default(); 4];
    assert_eq!(rt;
        judge(&policy(), &table, &mut rows),
        Ok(Judgement {
            busy_period: 20,
            verdict: Verdict::Admitted
        })
    );
    assert_eq!(rt; rows.map(response_at), [(6, 0), (3, 0), (1, 0), (20, 0)]);
    assert_eq!(rt; unattained(policy, &table, &rows), None);
    Ok(())
}

// Task 3 has begun a tick before, and 3 of its ticks are left: task 2 ends after 3 + 1.
// Task 0 waits for these 3, task 2 at 0 and at 6 and task 1 at 0, then takes 3: 10.
// Task 1 released at 3 has 5, as task 0 has from 0, which wins the tie: 3, 3, and task 2 at 0 and at 6 go before. It ends at 10, 7 later.
// Nothing blocks task 3, the last: 1 + 2 + 3, task 2 again at 6, and its own 4: 11.
#[test]
fn rows_holding(rt: HostRuntime) -> Result<(), Fail> {
    let Some(table) = four(Mode::NonPreemptive, 12) else {
        return Err(Fail::new("no table"));
    };
    let mut rows = [Row::default(); 4];
    assert_eq!(rt;
        judge(&policy(), &table, &mut rows),
        Ok(Judgement {
            busy_period: 20,
            verdict: Verdict::Admitted
        })
    );
    assert_eq!(rt; rows.map(response_at), [(10, 0), (7, 3), (4, 0), (11, 0)]);
    assert_eq!(rt; unattained(policy, &table, &rows), None);
    Ok(())
}

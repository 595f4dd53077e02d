//! Piles of three bands in both modes: tasks 0 and 1, tasks 2 and 3, and the rest.
use crate::playing::{counts, first_difference, response_at, task, unattained};
use analysis::{Judgement, Row, Verdict, judge};
use classes::{Classes, Member};
use dispatch::Run;
use policy::{Arrival, Bands, Deadline, Fixed};
use std::test::Fail;
use table::{MOST_TASKS, Mode, PolicyCode, Table};

fn six(mode: Mode) -> Option<Table> {
    let tasks = [
        task(1, 8, 8, 2),
        task(2, 10, 10, 1),
        task(2, 16, 14, 3),
        task(1, 12, 10, 4),
        task(2, 20, 40, 5),
        task(1, 20, 40, 6),
    ];
    Table::new(PolicyCode::Fixed, mode, 0, &tasks)
}

// Fixed: task 1 before task 0. Deadline: 14 and 10 ticks after the release. Arrival.
fn shipped() -> Bands<Fixed, Bands<Deadline, Arrival>> {
    Bands::new(2, Fixed, Bands::new(4, Deadline, Arrival))
}

// The same, but in the middle band task 2 is always before task 3, by its lower class.
fn mixed() -> Bands<Fixed, Bands<Classes, Arrival>> {
    let mut members = [Member::default(); MOST_TASKS];
    members[2].class = 3;
    members[3].class = 4;
    let middle = Classes::new(members);
    Bands::new(2, Fixed, Bands::new(4, middle, Arrival))
}

// 1: task 2 is of a higher band than tasks 4 and 5. 2: task 3 is due at 12, task 2 at 15.
// 3: the first band goes before all, task 1 before task 0. 7: task 4 came before task 5.
// 21: tasks 2 and 3 are both due at 31, and the lower number goes first. 24: tasks 4 and 5 came together.
// 25: task 0 displaces task 4.
#[test]
fn shipped_displacing(rt: HostRuntime) -> Result<(), Fail> {
    let Some(table) = six(Mode::Preemptive) else {
        return Err(Fail::new("no table"));
    };
    let mut run = Run::new(shipped(), &table);
    let lines: [&[u8]; 6] = [
        b"...^.3...........^.3.....1..",
        b"...*2............*2.........",
        b".*....6..........^..#5......",
        b"..1..................^2.....",
        b"*......8................*.3.",
        b".^......8...............^..4",
    ];
    assert_eq!(rt; first_difference(&mut run, &lines, 28), None);
    assert_eq!(rt; run.look(0), Ok(counts(3, 3, 0, 0, 3)));
    assert_eq!(rt; run.look(2), Ok(counts(2, 2, 0, 0, 6)));
    assert_eq!(rt; run.look(5), Ok(counts(2, 2, 0, 0, 8)));
    Ok(())
}

// The same releases. 1 and 25: task 4 is begun and holds.
#[test]
fn shipped_holding(rt: HostRuntime) -> Result<(), Fail> {
    let Some(table) = six(Mode::NonPreemptive) else {
        return Err(Fail::new("no table"));
    };
    let mut run = Run::new(shipped(), &table);
    let lines: [&[u8]; 6] = [
        b"...^.3...........^.3.....^2.",
        b"...*2............*2.........",
        b".^....#7.........^..#5......",
        b"..1..................^2.....",
        b"*2......................*2..",
        b".^......8...............^..4",
    ];
    assert_eq!(rt; first_difference(&mut run, &lines, 28), None);
    assert_eq!(rt; run.look(2), Ok(counts(2, 2, 0, 0, 7)));
    assert_eq!(rt; run.look(4), Ok(counts(2, 2, 0, 0, 2)));
    Ok(())
}

// 2: task 3 does not displace task 2, as under Deadline, and runs after the first band at 6.
#[test]
fn mixed_displacing(rt: HostRuntime) -> Result<(), Fail> {
    let Some(table) = six(Mode::Preemptive) else {
        return Err(Fail::new("no table"));
    };
    let mut run = Run::new(mixed(), &table);
    let lines: [&[u8]; 6] = [
        b"...^.3...........^.3.....1..",
        b"...*2............*2.........",
        b".*2..............^..#5......",
        b"..^...5..............^2.....",
        b"*......8................*.3.",
        b".^......8...............^..4",
    ];
    assert_eq!(rt; first_difference(&mut run, &lines, 28), None);
    assert_eq!(rt; run.look(3), Ok(counts(2, 2, 0, 0, 5)));
    Ok(())
}

// 2: task 2 begins before task 3 and holds at 3, where the first band waits.
#[test]
fn mixed_holding(rt: HostRuntime) -> Result<(), Fail> {
    let Some(table) = six(Mode::NonPreemptive) else {
        return Err(Fail::new("no table"));
    };
    let mut run = Run::new(mixed(), &table);
    let lines: [&[u8]; 6] = [
        b"...^..4..........^.3.....^2.",
        b"...^#3...........*2.........",
        b".^#3.............^..#5......",
        b"..^....6.............^2.....",
        b"*2......................*2..",
        b".^......8...............^..4",
    ];
    assert_eq!(rt; first_difference(&mut run, &lines, 28), None);
    assert_eq!(rt; run.look(0), Ok(counts(3, 3, 0, 0, 4)));
    assert_eq!(rt; run.look(3), Ok(counts(2, 2, 0, 0, 6)));
    Ok(())
}

// All release at 0: task 1 ends at 2, task 0 at 3, task 3 at 4, task 2 at 6. Task 4 would end at 8; released at 1, it has task 5 from 0 before it and
// task 0 again at 8, and ends at 10, 9 later. Task 5 has task 4 before it by the tie, and task 0 at 8: 10.
// Under the second pile tasks 2 and 3 end at 5 and 6.
#[test]
fn rows_displacing(rt: HostRuntime) -> Result<(), Fail> {
    let Some(table) = six(Mode::Preemptive) else {
        return Err(Fail::new("no table"));
    };
    let mut rows = [Row::default(); 6];
    assert_eq!(rt;
        judge(&shipped(), &table, &mut rows),
        Ok(Judgement {
            busy_period: 10,
            verdict: Verdict::Admitted
        })
    );
    assert_eq!(rt;
        rows.map(response_at),
        [(3, 0), (2, 0), (6, 0), (4, 0), (9, 1), (10, 0)]
    );
    assert_eq!(rt; unattained(shipped, &table, &rows), None);
    assert_eq!(rt;
        judge(&mixed(), &table, &mut rows),
        Ok(Judgement {
            busy_period: 10,
            verdict: Verdict::Admitted
        })
    );
    assert_eq!(rt;
        rows.map(response_at),
        [(3, 0), (2, 0), (5, 0), (6, 0), (9, 1), (10, 0)]
    );
    assert_eq!(rt; unattained(mixed, &table, &rows), None);
    Ok(())
}

// A job with C = 2 of a lower band, or of a later deadline, has begun a tick before: tasks 0 to 3 wait one tick longer.
// Nothing blocks task 4: it begins at 6 and ends at 8. Released at 1 it begins at 7, after task 5, and again takes 8, as task 0 at 8 finds it begun.
// Task 5 has task 4 before it by the tie, and task 0 at 8: 10.
#[test]
fn rows_holding(rt: HostRuntime) -> Result<(), Fail> {
    let Some(table) = six(Mode::NonPreemptive) else {
        return Err(Fail::new("no table"));
    };
    let mut rows = [Row::default(); 6];
    assert_eq!(rt;
        judge(&shipped(), &table, &mut rows),
        Ok(Judgement {
            busy_period: 10,
            verdict: Verdict::Admitted
        })
    );
    assert_eq!(rt;
        rows.map(response_at),
        [(4, 0), (3, 0), (7, 0), (5, 0), (8, 0), (10, 0)]
    );
    assert_eq!(rt; unattained(shipped, &table, &rows), None);
    assert_eq!(rt;
        judge(&mixed(), &table, &mut rows),
        Ok(Judgement {
            busy_period: 10,
            verdict: Verdict::Admitted
        })
    );
    assert_eq!(rt;
        rows.map(response_at),
        [(4, 0), (3, 0), (6, 0), (7, 0), (8, 0), (10, 0)]
    );
    assert_eq!(rt; unattained(mixed, &table, &rows), None);
    Ok(())
}

//! Playing a course that is drawn as one line of marks for each task, one mark a tick.
//! `^`: it releases; `*`: it releases and runs; `#`: it runs; `1` to `9`, and `A` for 10 and so on: it runs and finishes with this response.
//! A job that finishes in the tick of its release has response 1, so `1` releases too.
use analysis::Row;
use dispatch::{Counts, Run, Ticked};
use policy::Policy;
use rehearsal::play_worst_course;
use table::{Table, Task};

/// A task by its C, T, D and rank.
pub fn task(cost: u32, period: u32, deadline: u32, rank: u8) -> Task {
    Task {
        cost,
        period,
        deadline,
        rank,
        ..Task::fresh()
    }
}

/// What a look tells: accepted, finished, waiting, missed and longest.
pub fn counts(accepted: u32, finished: u32, waiting: u32, missed: u32, longest: u32) -> Counts {
    Counts {
        accepted,
        finished,
        waiting,
        missed,
        longest,
    }
}

/// The response and the offset of a row.
pub fn response_at(row: Row) -> (u32, u32) {
    (row.response, row.offset)
}

// A line's mark at this tick; past its end it does nothing.
fn mark(line: &[u8], time: u32) -> u8 {
    line.get(time as usize).map_or(b'.', |mark| *mark)
}

fn releases(mark: u8) -> bool {
    matches!(mark, b'^' | b'*' | b'1')
}

fn response(mark: u8) -> Option<u32> {
    match mark {
        b'1'..=b'9' => Some(u32::from(mark - b'0')),
        b'A'..=b'Z' => Some(u32::from(mark - b'A') + 10),
        _ => None,
    }
}

fn runs(mark: u8) -> bool {
    matches!(mark, b'*' | b'#') || response(mark).is_some()
}

// Makes the releases of this tick; whether each is answered with the time.
fn release_marked<P: Policy>(run: &mut Run<P>, lines: &[&[u8]], time: u32) -> bool {
    let mut fine = true;
    for (task, line) in lines.iter().enumerate() {
        if releases(mark(line, time)) {
            fine &= run.release(task) == Ok(time);
        }
    }
    fine
}

// The task that is drawn as running, with the response if it finishes; none where none runs.
fn drawn(lines: &[&[u8]], time: u32) -> Option<(usize, Option<u32>)> {
    let task = lines.iter().position(|line| runs(mark(line, time)))?;
    Some((task, response(mark(lines[task], time))))
}

// What a tick told, in the same form.
fn told(ticked: Ticked) -> Option<(usize, Option<u32>)> {
    match ticked {
        Ticked::Idle => None,
        Ticked::Ran { task, .. } => Some((task, None)),
        Ticked::Finished { task, response, .. } => Some((task, Some(response))),
    }
}

// Whether the releases and the tick of this time are answered as the lines have it.
fn goes_as_drawn<P: Policy>(run: &mut Run<P>, lines: &[&[u8]], time: u32) -> bool {
    let released = release_marked(run, lines, time);
    let ticked = run.tick(false).map(told);
    released && ticked == Ok(drawn(lines, time))
}

/// The first tick before `end` at which the run does otherwise than the lines.
pub fn first_difference<P: Policy>(run: &mut Run<P>, lines: &[&[u8]], end: u32) -> Option<u32> {
    (0..end).find(|time| !goes_as_drawn(run, lines, *time))
}

// Whether the worst course of the task shows the response of its row.
fn attains<P: Policy + Drop>(policy: P, table: &Table, task: usize, row: Row) -> bool {
    play_worst_course(policy, table, task, row) == Ok(Some(row.response))
}

/// The first task whose worst course does not show its response.
pub(crate) fn unattained<P: Policy + Drop, F: Fn() -> P>(
    policy: F,
    table: &Table,
    rows: &[Row],
) -> Option<usize>
    requires { F.IsAlwaysCallable policy }
{
    (0..rows.len()).find(|task| !attains(policy(), table, *task, rows[*task]))
}

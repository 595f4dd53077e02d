//! What is printed: a line and a timeline for each task, and a line for each call.
ghost use Rattle.std.specs.Prelude.{◌≡◌, ◌+◌, Some, None, if◌then◌else◌, nat_lt};

use analysis::Row;
use dispatch::Step;
use policy::ByCode;
use rehearsal::{Miss, draw_worst_course, first_miss, play_worst_course};
use std::io;
use std::io::Write;
use table::{Refusal, Table, Task};

fn print_seen(rt: &HostRuntime, seen: Result<Option<u32>, Refusal>) -> io::Result<()> {
    match seen {
        Ok(Some(response)) => println!(rt; " {response}"),
        Ok(None) | Err(_) => println!(rt; " -"),
    }
}

// How many ticks of a course to draw: offset, response and a lead of 1; none where a line of 200 cannot hold them.
fn ticks_to_draw(row: Row) -> Option<usize>
    ensures { result ≡ (if nat_lt (row.offset + row.response) 200 then Some (row.offset + row.response + 1) else None) }
{
    let ticks = row.offset.saturating_add(row.response);
    (ticks < 200).then_some(ticks as usize + 1)
}

// One line for each task of the table.
fn print_timeline(rt: &HostRuntime, table: &Table, task: usize, row: Row) -> io::Result<()> {
    let Some(ticks) = ticks_to_draw(row) else {
        return Ok(());
    };
    // By number, which is what the drawing is asked for.
    for job in 0..table.count() {
        let mut marks = [b'.'; 200];
        let line = &mut marks[..ticks];
        if let Ok(true) = draw_worst_course(ByCode, table, task, row.offset, job, line) {
            print!(rt; "  ")?;
            rt.stdout().write_all(line)?;
            println!(rt; "")?;
        }
    }
    Ok(())
}

// Where a deadline was missed.
fn print_miss(rt: &HostRuntime, missed: Result<Option<Miss>, Refusal>) -> io::Result<()> {
    let Ok(Some(miss)) = missed else {
        return Ok(());
    };
    println!(rt; "  {miss}")
}

fn print_task(
    rt: &HostRuntime,
    table: &Table,
    number: usize,
    task: &Task,
    row: Row,
) -> io::Result<()> {
    let name = task.name;
    let response = row.response;
    print!(rt; "{number} {name} {response}")?;
    print_seen(rt, play_worst_course(ByCode, table, number, row))?;
    print_timeline(rt, table, number, row)?;
    print_miss(rt, first_miss(ByCode, table, number, row))
}

pub(crate) fn print_tasks(rt: &HostRuntime, table: &Table, rows: &[Row]) -> io::Result<()> {
    for (number, (task, row)) in table.tasks().iter().zip(rows).enumerate() {
        print_task(rt, table, number, task, *row)?;
    }
    Ok(())
}

fn print_step(rt: &HostRuntime, step: &Step) -> io::Result<()> {
    let call = step.call;
    match step.answer {
        Ok(reply) => println!(rt; "{call}: {reply}"),
        Err(why) => {
            let number = why.number();
            println!(rt; "{call}: refused {number}")
        }
    }
}

pub(crate) fn print_steps(rt: &HostRuntime, steps: &[Step]) -> io::Result<()> {
    for step in steps {
        print_step(rt, step)?;
    }
    Ok(())
}

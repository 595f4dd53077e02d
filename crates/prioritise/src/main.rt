//! Reads a table file from standard input and prints its tasks by their new priorities, or why there is no such order.
#![tactic(auto)]

use analysis::{Judgement, Row};
use console::{INPUT_BYTES, front, print_refusal, read_input};
use planning::judge_table;
use priority::assign_priorities;
use std::io;
use table::{MOST_TASKS, Refusal, Table, Task};
use tablefile::read_table;

fn print_task(rt: &HostRuntime, number: usize, task: &Task, row: &Row) -> io::Result<()> {
    let name = task.name;
    let response = row.response;
    let deadline = row.deadline;
    println!(rt; "{number} {name} {response} {deadline}")
}

fn print_order(rt: &HostRuntime, table: &Table, rows: &[Row]) -> io::Result<()> {
    // By rank; a search for each, as a table keeps its tasks in their own order.
    for rank in 1..=MOST_TASKS {
        let mut lines = table.tasks().iter().zip(rows).enumerate();
        let line = lines.find(|(_, (task, _))| usize::from(task.rank) == rank);
        if let Some((number, (task, row))) = line {
            print_task(rt, number, task, row)?;
        }
    }
    Ok(())
}

// The table with its new ranks in the place, and the rows of its judgement.
fn ordered(input: &[u8], place: &mut Table, rows: &mut [Row]) -> Result<Judgement, Refusal> {
    let mut given = Table::fresh();
    read_table(input, &mut given)?;
    assign_priorities(&given, place)?;
    judge_table(place, rows)
}

fn main(rt: HostRuntime) -> io::Result<()> {
    let mut buffer = [0u8; INPUT_BYTES];
    let len = read_input(&rt, &mut buffer)?;
    let mut table = Table::fresh();
    let mut rows = [Row::default(); MOST_TASKS];
    match ordered(front(&buffer, len), &mut table, &mut rows) {
        Ok(_) => print_order(&rt, &table, &rows),
        Err(refusal) => print_refusal(&rt, refusal),
    }
}

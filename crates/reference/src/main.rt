//! Judges the reference tables and prints for each its stretch, responses, offsets and verdict, or the number of its refusal.
#![tactic(auto)]

use analysis::{Judgement, Row, judge};
use cases::{CASES, Case, Plain};
use policy::ByCode;
use std::io;
use table::{MOST_TASKS, Name, Table, Task};

mod cases;

// The most tasks that a reference table has.
const MOST: usize = 15;

// Not `From`: the tuple and Task are both of other crates.
fn task_of(plain: Plain) -> Task {
    let (cost, period, deadline, rank) = plain;
    Task {
        cost,
        period,
        deadline,
        rank,
        name: Name::single(),
    }
}

fn table_of(case: Case) -> Option<Table> {
    let mut tasks = [task_of((1, 1, 1, 1)); MOST];
    for (place, plain) in tasks.iter_mut().zip(case.tasks) {
        *place = task_of(*plain);
    }
    let count = case.tasks.len().min(tasks.len());
    Table::new(case.policy, case.mode, case.band, &tasks[..count])
}

fn print_rows(rt: &HostRuntime, rows: &[Row]) -> io::Result<()> {
    for row in rows {
        let response = row.response;
        let offset = row.offset;
        print!(rt; " {response}@{offset}")?;
    }
    Ok(())
}

fn print_judgement(rt: &HostRuntime, judgement: Judgement, rows: &[Row]) -> io::Result<()> {
    let stretch = judgement.busy_period;
    print!(rt; " stretch {stretch}")?;
    print_rows(rt, rows)?;
    let verdict = judgement.verdict;
    println!(rt; " {verdict}")
}

fn print_table(rt: &HostRuntime, table: &Table) -> io::Result<()> {
    let mut rows = [Row::default(); MOST_TASKS];
    match judge(&ByCode, table, &mut rows) {
        Ok(judgement) => {
            let count = table.count().min(rows.len());
            print_judgement(rt, judgement, &rows[..count])
        }
        Err(refusal) => {
            let number = refusal.number();
            println!(rt; " refused {number}")
        }
    }
}

fn main(rt: HostRuntime) -> io::Result<()> {
    for case in CASES {
        let name = case.name;
        print!(rt; "{name}:")?;
        match table_of(case) {
            Some(table) => print_table(&rt, &table)?,
            None => println!(rt; " no table")?,
        }
    }
    Ok(())
}

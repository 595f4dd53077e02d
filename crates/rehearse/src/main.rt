//! Reads a table file from standard input, judges it, plays every task's worst course, and prints what was reported beside what was seen, with a timeline where a line can hold it.
//! Then prints the answers to the calls of the file that it is given, if it is given one.
#![tactic(auto)]

use analysis::{Judgement, Row};
use callfile::read_calls;
use console::{INPUT_BYTES, front, print_refusal, read_input};
use dispatch::{Event, Reply, Step, Ticked};
use policy::ByCode;
use printing::{print_steps, print_tasks};
use rehearsal::judged_replay;
use std::{env, fs, io};
use table::{MOST_TASKS, Refusal, Table};
use tablefile::read_table;

mod printing;

// Reads the table, judges it under the policy that its own code asks for, and plays the calls.
fn rehearsed(
    input: &[u8],
    table: &mut Table,
    rows: &mut [Row],
    steps: &mut [Step],
) -> Result<Judgement, Refusal> {
    read_table(input, table)?;
    judged_replay(ByCode, table, rows, steps)
}

// The calls of the file that the program is given; none where it is given none.
fn calls_given(rt: &HostRuntime) -> io::Result<Vec<u8>> {
    match env::args(rt)?.nth(1) {
        Some(path) => fs::read(rt, path.as_str()),
        None => Ok(Vec::new(rt.alloc())),
    }
}

fn main(rt: HostRuntime) -> io::Result<()> {
    let mut buffer = [0u8; INPUT_BYTES];
    let len = read_input(&rt, &mut buffer)?;
    let text = calls_given(&rt)?;
    // As many steps as there are bytes, so that every call finds one.
    let unmade = Step {
        call: Event::Tick { done: false },
        answer: Ok(Reply::Ticked { what: Ticked::Idle }),
    };
    let mut places = vec![in rt.alloc(); unmade; text.len()]?;
    let count = read_calls(&text, &mut places);
    let steps = &mut places[..count];
    let mut table = Table::fresh();
    let mut rows = [Row::default(); MOST_TASKS];
    match rehearsed(front(&buffer, len), &mut table, &mut rows, steps) {
        Ok(judgement) => {
            print_tasks(&rt, &table, &rows)?;
            let verdict = judgement.verdict;
            println!(rt; "{verdict}")?;
            print_steps(&rt, steps)
        }
        Err(refusal) => print_refusal(&rt, refusal),
    }
}

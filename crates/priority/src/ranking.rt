//! Ranks of a table exchanged.
ghost use Rattle.std.specs.Prelude.{◌≡◌, ◌≤◌, map, length, take};
ghost use Rattle.table.specs.Content.{sporadic};
ghost use Rattle.table.specs.Model.{content};
ghost use Rattle.table.specs.Rules.{task_count};
ghost use Rattle.priority.specs.Exchange.{exchanged, exchange, with_exchanged};

use table::{PolicyCode, Table, Task};

fn exchanged(first: u8, second: u8, rank: u8) -> u8
    ensures { result ≡ exchanged first second rank }
{
    if rank == first {
        second
    } else if rank == second {
        first
    } else {
        rank
    }
}

// The task with its rank exchanged.
fn reranked(task: Task, first: u8, second: u8) -> Task
    ensures { sporadic result ≡ exchange first second (sporadic task) }
{
    Task {
        rank: exchanged(first, second, task.rank),
        ..task
    }
}

// The tasks with two ranks exchanged.
fn exchanged_tasks(tasks: &[Task], first: u8, second: u8) -> [Task; 24]
    requires some { 1 ≤ length tasks.now }
    requires few { length tasks.now ≤ 24 }
    ensures room { length result ≡ 24 }
    ensures front { map sporadic (take (length tasks.now) result) ≡ map (exchange first second) (map sporadic tasks.now) }
{
    let mut room = [tasks[0]; 24];
    room[..tasks.len()].copy_from_slice(tasks);
    for task in room.iter_mut() {
        *task = reranked(*task, first, second);
    }
    room
}

// The table under Fixed with two ranks exchanged.
pub(crate) fn exchange_ranks(table: &Table, first: u8, second: u8) -> Table
    requires first_low { 1 ≤ first }
    requires first_high { first ≤ task_count (content table.now) }
    requires second_low { 1 ≤ second }
    requires second_high { second ≤ task_count (content table.now) }
    ensures { content result ≡ with_exchanged first second (content table.now) }
{
    let room = exchanged_tasks(table.tasks(), first, second);
    // The ranks are those of the table in another order, so the rules that it follows are followed here.
    Table::new(PolicyCode::Fixed, table.mode(), 0, &room[0..table.count()]).unwrap()
}

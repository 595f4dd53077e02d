//! What every policy tests before it compares.
ghost use Rattle.std.specs.Prelude.{◌≡◌};
ghost use Rattle.table.specs.Model.{content};
ghost use Rattle.table.specs.Rules.{task_at};
ghost use Rattle.policy.specs.Answers.{on_clock, comparable};
ghost use Rattle.policy.specs.Pairs.{settled_reach};

use crate::job::{Job, Reach};
use table::Table;

fn on_clock(release: i64) -> bool
    ensures { result ≡ on_clock release }
{
    (-1..=4_000_000_000).contains(&release)
}

/// Whether these are two different jobs of the table, released on the clock.
pub fn comparable(table: &Table, first: Job, second: Job) -> bool
    ensures { result ≡ comparable (content table.now) first second }
{
    let count = table.count();
    let inside = first.task < count && second.task < count;
    let timed = on_clock(first.release) && on_clock(second.release);
    inside && timed && first != second
}

/// The reach that a policy answers where its order has `asked`: Never outside the table, and 0 from a task to itself.
pub fn settled_reach(table: &Table, from: usize, to: usize, asked: Reach) -> Reach
    ensures { result ≡ settled_reach (content table.now) from to asked }
{
    let count = table.count();
    if from >= count || to >= count {
        return Reach::Never;
    }
    if from == to { Reach::Within(0) } else { asked }
}

// Two functions of one line: a shared one that hands out the task would leave each of them as long.

/// The rank of a task; 1 where the table has no such task.
pub fn rank_of(table: &Table, number: usize) -> u8
    ensures { result ≡ (task_at (content table.now) number).rank }
{
    table.task(number).map_or(1, |task| task.rank)
}

/// The relative deadline of a task; 1 where the table has no such task.
pub fn deadline_of(table: &Table, number: usize) -> u32
    ensures { result ≡ (task_at (content table.now) number).deadline }
{
    table.task(number).map_or(1, |task| task.deadline)
}

//! Comparing jobs by a key: the release plus a constant of the task, and a tie goes to the lower task number.
ghost use Rattle.std.specs.Prelude.{◌≡◌, ◌≤◌, true, ◌&&◌, pos, ◌+ℤ◌};
ghost use Rattle.table.specs.Model.{content};
ghost use Rattle.policy.specs.Answers.{comparable, on_clock};
ghost use Rattle.policy.specs.Orders.{key_ahead, key_reach};
ghost use Rattle.policy.specs.Pairs.{settled_reach};
ghost use Rattle.policy.specs.declared.job.Reach.TheVariants.{Within};

use crate::compare::{comparable, settled_reach};
use crate::job::{Job, Reach};
use table::Table;

fn key(release: i64, offset: u32) -> i64
    requires { on_clock release ≡ true }
    ensures { result ≡ release +ℤ pos offset }
{
    release + i64::from(offset)
}

fn key_ahead(task: usize, mine: i64, rival: usize, other: i64) -> bool
    ensures { result ≡ key_ahead task mine rival other }
{
    (mine, task) < (other, rival)
}

// Whether the first job, whose task adds m, has the key ahead of the second, whose task adds n.
pub(crate) fn keyed_ahead(table: &Table, first: Job, m: u32, second: Job, n: u32) -> bool
    ensures { result ≡ (comparable (content table.now) first second && key_ahead first.task (first.release +ℤ pos m) second.task (second.release +ℤ pos n)) }
{
    comparable(table, first, second)
        && key_ahead(
            first.task,
            key(first.release, m),
            second.task,
            key(second.release, n),
        )
}

// The reach from a task that adds m to one that adds n.
pub(crate) fn keyed_reach(table: &Table, from: usize, m: u32, to: usize, n: u32) -> Reach
    requires { (m ≤ 65535) × (n ≤ 65535) }
    ensures { result ≡ settled_reach (content table.now) from to (Within (key_reach from m to n)) }
{
    let tie = i32::from(from < to);
    let number = m as i32 - n as i32 - tie;
    settled_reach(table, from, to, Reach::Within(number))
}

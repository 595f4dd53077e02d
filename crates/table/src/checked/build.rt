//! Making a table: a fresh one, or one of given parts where they keep the rules.
ghost use Rattle.std.specs.Prelude.{◌≡◌, ◌<◌, ◌≤◌, Bool, true, not, map, length, ◌==◌};
ghost use Rattle.table.specs.Content.{sporadic};
ghost use Rattle.table.specs.Model.{content, Built, fresh_content};
ghost use Rattle.table.specs.Rules.{band_in_range, rank_free, ranks_differ, follows_rules};
ghost use Rattle.table.specs.Sporadic.{cost_in_range, period_in_range, deadline_in_range, rank_in_range, task_in_range, every};

use super::Table;
use crate::kinds::{Mode, PolicyCode};
use crate::task::{MOST_TASKS, Task};

// The longest C; the longest T and D.
const MOST_COST: u32 = 4096;

const MOST_TICKS: u32 = 65535;

// Each of these rules is one line; a shared function of the largest number would be the same line at each call.

/// Whether C may be this: 1 to 4,096.
pub fn cost_in_range(cost: u32) -> bool
    ensures { result ≡ cost_in_range cost }
{
    (1..=MOST_COST).contains(&cost)
}

/// Whether T may be this: 1 to 65,535.
pub fn period_in_range(period: u32) -> bool
    ensures { result ≡ period_in_range period }
{
    (1..=MOST_TICKS).contains(&period)
}

/// Whether D may be this beside T: 1 to 65,535, and at most 8 times T.
pub fn deadline_in_range(period: u32, deadline: u32) -> bool
    ensures { result ≡ deadline_in_range period deadline }
{
    (1..=MOST_TICKS).contains(&deadline) && u64::from(deadline) <= 8 * u64::from(period)
}

/// Whether a rank may be this among so many tasks: 1 to their number.
pub fn rank_in_range(count: usize, rank: u8) -> bool
    ensures { result ≡ rank_in_range count rank }
{
    (1..=count).contains(&usize::from(rank))
}

/// Whether the band fits the policy: 1 to one less than the tasks under Bands, 0 otherwise.
pub fn band_in_range(policy: PolicyCode, count: usize, band: usize) -> bool
    ensures { result ≡ band_in_range policy count band }
{
    match policy {
        PolicyCode::Bands => (1..count).contains(&band),
        PolicyCode::Fixed | PolicyCode::Deadline | PolicyCode::Arrival => band == 0,
    }
}

/// Whether no task of these has the rank.
pub fn rank_is_free(rank: u8, tasks: &[Task]) -> bool
    ensures { result ≡ rank_free rank (map sporadic tasks.now) }
{
    tasks.iter().all(|task| task.rank != rank)
}

fn task_in_range(count: usize, task: &Task) -> bool
    ensures { result ≡ task_in_range count (sporadic task.now) }
{
    cost_in_range(task.cost)
        && period_in_range(task.period)
        && deadline_in_range(task.period, task.deadline)
        && rank_in_range(count, task.rank)
}

fn tasks_in_range(count: usize, tasks: &[Task]) -> bool
    ensures { result ≡ every (task_in_range count) (map sporadic tasks.now) }
{
    tasks.iter().all(|task| task_in_range(count, task))
}

fn ranks_differ(tasks: &[Task]) -> bool
    ensures { result ≡ ranks_differ (map sporadic tasks.now) }
{
    tasks
        .iter()
        .enumerate()
        .all(|(at, task)| rank_is_free(task.rank, &tasks[at + 1..]))
}

fn follows_rules(policy: PolicyCode, band: usize, tasks: &[Task]) -> bool
    ensures rules { result ≡ follows_rules policy band (map sporadic tasks.now) }
    ensures few { result ≡ true → length tasks.now ≤ 24 }
{
    let count = tasks.len();
    (1..=MOST_TASKS).contains(&count)
        && band_in_range(policy, count, band)
        && tasks_in_range(count, tasks)
        && ranks_differ(tasks)
}

impl Table {
    /// A fresh place: one task named A with C, T, D and rank 1, under Fixed, displacing.
    pub fn fresh() -> Table
        ensures { content result ≡ fresh_content }
    {
        Table {
            policy: PolicyCode::Fixed,
            mode: Mode::Preemptive,
            band: 0,
            count: 1,
            tasks: [Task::fresh(); MOST_TASKS],
        }
    }

    /// The table of these parts; none where they break a rule.
    pub fn new(policy: PolicyCode, mode: Mode, band: usize, tasks: &[Task]) -> Option<Table>
        ensures { Built (record { policy = policy; mode = mode; band = band; tasks = map sporadic tasks.now }) result }
    {
        if !follows_rules(policy, band, tasks) {
            return None;
        }
        let mut room = [Task::fresh(); MOST_TASKS];
        room[..tasks.len()].copy_from_slice(tasks);
        Some(Table {
            policy,
            mode,
            band,
            count: tasks.len(),
            tasks: room,
        })
    }
}

//! The blocking of a worst course, task by task.
ghost use Rattle.std.specs.Prelude.{◌≡◌, ◌<◌, IsSome};
ghost use Rattle.table.specs.Model.{content};
ghost use Rattle.table.specs.Rules.{task_count};
ghost use Rattle.theory.specs.Course.{course_blocking};
ghost use Rattle.theory.specs.Response.{blocking};
ghost use Rattle.courses.specs.Courses.{Led, block_at, blocker_of};

use super::Lead;
use policy::{Job, Policy};
use table::{Mode, Refusal, Table};

/// From this offset on no course is told.
pub const OFFSET_LIMIT: u32 = 60_000;

// What a worst course is sought for: a task at an offset, in a table under a policy.
#[derive(Drop)]
struct Setting<'a, P> {
    policy: &'a P,
    table: &'a Table,
    task: usize,
    offset: u32,
    ghost known: { task < task_count (content table.now) },
    ghost short: { offset < 60000 },
}

impl<P: Policy> Setting<'_, P> {
    // What task j blocks: C - 1 where its job released at -1 is behind; none where it is not, and for the task itself.
    fn block_of(&self, j: usize) -> Option<u32>
        ensures { result ≡ block_at (content self.now.table.now) (P.meaning self.now.policy.now (content self.now.table.now)) self.now.task self.now.offset j }
    {
        let job = Job {
            task: self.task,
            release: i64::from(self.offset),
        };
        let other = Job {
            task: j,
            release: -1,
        };
        if j == self.task || !self.policy.ahead(self.table, job, other) {
            return None;
        }
        let task = self.table.task(j)?;
        Some(task.cost.saturating_sub(1))
    }

    // The longest blocking; 0 where jobs can be displaced.
    fn longest(&self) -> u32
        ensures { result ≡ course_blocking (content self.now.table.now) (P.meaning self.now.policy.now (content self.now.table.now)) self.now.task self.now.offset }
    {
        match self.table.mode() {
            Mode::Preemptive => 0,
            Mode::NonPreemptive => (0..self.table.count())
                .map(|j| self.block_of(j).unwrap_or(0))
                .max()
                .unwrap_or(0),
        }
    }

    // The lowest-numbered task that blocks longest; none where none does.
    fn blocker(&self) -> Option<usize>
        ensures { result ≡ blocker_of (content self.now.table.now) (P.meaning self.now.policy.now (content self.now.table.now)) self.now.task self.now.offset }
    {
        let longest = self.longest();
        if longest == 0 {
            return None;
        }
        (0..self.table.count()).find(|&j| self.block_of(j) == Some(longest))
    }
}

/// The lead of the worst course of a task at an offset, and its blocker; none from 60,000 on. Refused where the table has no such task.
pub fn worst_course_lead<P: Policy>(
    policy: &P,
    table: &Table,
    task: usize,
    offset: u32,
) -> Result<Lead, Refusal>
    ensures { Led (content table.now) (P.meaning policy.now (content table.now)) task offset result }
{
    if task >= table.count() {
        return Err(Refusal::NoTaskToJudge { task });
    }
    if offset >= OFFSET_LIMIT {
        return Ok(Lead::default());
    }
    let setting = Setting {
        policy,
        table,
        task,
        offset,
    };
    let blocker = setting.blocker();
    Ok(Lead {
        ticks: u32::from(blocker.is_some()),
        blocker,
    })
}

//! The ticks of a worst course.
ghost use Rattle.std.specs.Prelude.{◌≡◌, ◌+◌, ◌<◌, ◌≤◌, ◌&&◌, nat_lt};
ghost use Rattle.table.specs.Model.{content};
ghost use Rattle.table.specs.Rules.{task_at, task_count};
ghost use Rattle.courses.specs.Courses.{own_releases, other_releases, releases_by};
ghost use Rattle.courses.specs.OneCourse.{Coursed};

use super::Course;
use crate::lead::blocking::{OFFSET_LIMIT, worst_course_lead};
use policy::Policy;
use table::{Refusal, Table};

impl Course {
    /// The worst course of a task at an offset; none from 60,000 on. Refused where the table has no such task.
    pub fn new<P: Policy>(
        policy: &P,
        table: &Table,
        task: usize,
        offset: u32,
    ) -> Result<Option<Course>, Refusal>
        ensures { Coursed (content table.now) (P.meaning policy.now (content table.now)) task offset result }
    {
        let lead = worst_course_lead(policy, table, task, offset)?;
        if offset >= OFFSET_LIMIT {
            return Ok(None);
        }
        Ok(Some(Course { lead, task, offset }))
    }

    /// The task whose course it is.
    pub fn task(&self) -> usize
        ensures { result ≡ self.now.task }
    {
        self.task
    }

    /// When the job that takes longest is released: the offset after the lead.
    pub fn arrival(&self) -> u32
        ensures { result ≡ self.now.lead.ticks + self.now.offset }
    {
        self.lead.ticks + self.offset
    }

    // The task itself: at lead + (a mod T) and every T after it, up to lead + a.
    fn own_releases(&self, period: u32, t: u32) -> bool
        requires { 1 ≤ period }
        ensures { result ≡ own_releases self.now.lead.ticks self.now.offset period t }
    {
        let first = self.lead.ticks + self.offset % period;
        first <= t && t <= self.arrival() && (t - first) % period == 0
    }

    // Another task: at the lead and every T after it.
    fn other_releases(&self, period: u32, t: u32) -> bool
        requires { 1 ≤ period }
        ensures { result ≡ other_releases self.now.lead.ticks period t }
    {
        self.lead.ticks <= t && (t - self.lead.ticks) % period == 0
    }

    /// Whether task j releases at tick t; no where the table has no such task.
    pub fn releases(&self, table: &Table, j: usize, t: u32) -> bool
        ensures { result ≡ (nat_lt j (task_count (content table.now)) && releases_by self.now.lead self.now.task self.now.offset j (task_at (content table.now) j).period t) }
    {
        let Some(task) = table.task(j) else {
            return false;
        };
        if j == self.task {
            self.own_releases(task.period, t)
        } else if self.lead.blocker == Some(j) {
            t == 0
        } else {
            self.other_releases(task.period, t)
        }
    }
}

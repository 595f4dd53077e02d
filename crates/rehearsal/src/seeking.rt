//! Looking for an overdue job, task by task and tick by tick.
ghost use Rattle.std.specs.Prelude.{◌≡◌, ◌-◌, ◌<◌, ◌≤◌, ◌&&◌, List, nat_le, nat_lt};
ghost use Rattle.table.specs.Model.{content};
ghost use Rattle.table.specs.Rules.{task_at, task_count};
ghost use Rattle.theory.specs.Machine.{Call, start, play};
ghost use Rattle.courses.specs.OneCourse.{CourseOf};
ghost use Rattle.dispatch.specs.Represents.{Answered};
ghost use Rattle.rehearsal.specs.Due.{due_of, DueFirst};
ghost use Rattle.rehearsal.specs.FirstMiss.{MissedFirst};

use crate::misses::Miss;
use crate::playing::Playing;
use courses::Course;
use policy::Policy;
use table::Table;

// Whether a job of this task has reached its deadline.
fn is_due(table: &Table, task: usize, release: u32, time: u32) -> bool
    ensures { result ≡ (nat_lt task (task_count (content table.now)) && nat_le (task_at (content table.now) task).deadline (time - release)) }
{
    table
        .task(task)
        .is_some_and(|known| known.deadline <= time.saturating_sub(release))
}

impl<P: Policy> Playing<'_, P> {
    // The release of the oldest waiting job of a task, where its deadline is reached.
    fn due_release(&self, task: usize, time: u32) -> Option<u32>
        ensures { (calls : List Call) → Answered (P.meaning self.now.run.policy (content self.now.table.now)) self.now.run.station calls → task < task_count (content self.now.table.now) → result ≡ due_of (content self.now.table.now) (play (content self.now.table.now) (P.meaning self.now.run.policy (content self.now.table.now)) start calls) time task }
    {
        self.run
            .oldest(task)
            .ok()?
            .filter(|release| is_due(self.table, task, *release, time))
    }

    // The lowest-numbered task that has one, with this job.
    fn first_due(&self, time: u32) -> Option<Miss>
        ensures { (calls : List Call) → Answered (P.meaning self.now.run.policy (content self.now.table.now)) self.now.run.station calls → DueFirst (content self.now.table.now) (play (content self.now.table.now) (P.meaning self.now.run.policy (content self.now.table.now)) start calls) time result }
    {
        (0..self.table.count()).find_map(|task| {
            let release = self.due_release(task, time)?;
            Some(Miss {
                task,
                release,
                time,
            })
        })
    }
}

// The first miss along a course up to a time.
pub(crate) fn seek<P: Policy + Drop>(
    policy: P,
    table: &Table,
    course: &Course,
    end: u32,
) -> Option<Miss>
    requires course { CourseOf (content table.now) (P.meaning policy (content table.now)) course.now }
    requires end { end ≤ 4000000000 }
    ensures { MissedFirst (content table.now) (P.meaning policy (content table.now)) course.now.task course.now.offset end result }
{
    let mut playing = Playing::new(policy, table, course);
    // A loop: each turn changes the run, so a chain would hand its state from closure to closure and be no plainer.
    for time in 0..end {
        let _ = playing.tick(time);
        if let Some(miss) = playing.first_due(time + 1) {
            return Some(miss);
        }
    }
    None
}

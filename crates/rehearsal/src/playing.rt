//! Playing a worst course on a run, tick by tick.
ghost use Rattle.std.specs.Prelude.{◌≡◌, ◌+◌, false, List, [], ◌∷◌, ◌++◌, if◌then◌else◌};
ghost use Rattle.table.specs.Model.{content};
ghost use Rattle.table.specs.Rules.{task_count};
ghost use Rattle.theory.specs.Course.{releases_below, course_until};
ghost use Rattle.theory.specs.Machine.{Call, release, start, answers};
ghost use Rattle.courses.specs.OneCourse.{CourseOf};
ghost use Rattle.dispatch.specs.Replies.{tick_told};
ghost use Rattle.dispatch.specs.Represents.{Answered};
ghost use Rattle.rehearsal.specs.OneTick.{OneTick};
ghost use Rattle.rehearsal.specs.Seen.{seen, told_by};

use courses::Course;
use dispatch::{Run, Ticked};
use policy::Policy;
use table::{Refusal, Table};

// The response of the job of this task and release, where a tick tells that it finished.
fn response_told(given: Result<Ticked, Refusal>, job: usize, arrival: u32) -> Option<u32>
    ensures { result ≡ told_by job arrival (tick_told given) }
{
    match given {
        Ok(
            Ticked::Finished {
                task,
                release,
                response,
            },
        ) if task == job && release == arrival => Some(response),
        _ => None,
    }
}

// Releases a job of the task where the course tells so.
fn release_if<P: Policy>(run: &mut Run<P>, told: bool, task: usize)
    ensures policy { run.new.policy ≡ run.old.policy }
    ensures table { run.new.station.table ≡ run.old.station.table }
    ensures answered { (calls : List Call) → Answered (P.meaning run.old.policy (content run.old.station.table)) run.old.station calls → Answered (P.meaning run.old.policy (content run.old.station.table)) run.new.station (calls ++ (if told then release task ∷ [] else [])) }
{
    if told {
        let _ = run.release(task);
    }
}

// A worst course on a run of its table.
#[derive(Drop)]
pub(crate) struct Playing<'a, P: Policy> {
    pub(crate) run: Run<P>,
    pub(crate) table: &'a Table,
    pub(crate) course: &'a Course,
    ghost own: { table.now ≡ run.station.table },
    ghost along: { CourseOf (content table.now) (P.meaning run.policy (content table.now)) course.now },
}

impl<'a, P: Policy> Playing<'a, P> {
    // The course on a fresh run.
    pub(crate) fn new(policy: P, table: &'a Table, course: &'a Course) -> Playing<'a, P>
        requires { CourseOf (content table.now) (P.meaning policy (content table.now)) course.now }
        ensures policy { result.run.policy ≡ policy }
        ensures table { result.table.now ≡ table.now }
        ensures course { result.course.now ≡ course.now }
        ensures answered { Answered (P.meaning policy (content table.now)) result.run.station [] }
    {
        Playing {
            run: Run::new(policy, table),
            table,
            course,
        }
    }

    // All releases of one tick.
    fn release_told(&mut self, time: u32)
        ensures policy { self.new.run.policy ≡ self.old.run.policy }
        ensures table { self.new.table.now ≡ self.old.table.now }
        ensures course { self.new.course.now ≡ self.old.course.now }
        ensures answered { (calls : List Call) → Answered (P.meaning self.old.run.policy (content self.old.table.now)) self.old.run.station calls → Answered (P.meaning self.old.run.policy (content self.old.table.now)) self.new.run.station (calls ++ releases_below (content self.old.table.now) (P.meaning self.old.run.policy (content self.old.table.now)) self.old.course.now.task self.old.course.now.offset time (task_count (content self.old.table.now))) }
    {
        // A loop: `for_each` with the run in its closure would be no plainer, as nothing is picked or gathered.
        for task in 0..self.table.count() {
            let told = self.course.releases(self.table, task, time);
            release_if(&mut self.run, told, task);
        }
    }

    // One tick of the course: its releases, then a tick without done.
    pub(crate) fn tick(&mut self, time: u32) -> Result<Ticked, Refusal>
        ensures policy { self.new.run.policy ≡ self.old.run.policy }
        ensures table { self.new.table.now ≡ self.old.table.now }
        ensures course { self.new.course.now ≡ self.old.course.now }
        ensures answered { (calls : List Call) → Answered (P.meaning self.old.run.policy (content self.old.table.now)) self.old.run.station calls → OneTick (content self.old.table.now) (P.meaning self.old.run.policy (content self.old.table.now)) self.old.course.now time calls self.new.run.station (tick_told result) }
    {
        self.release_told(time);
        self.run.tick(false)
    }
}

// The course up to a time on a fresh run: the last that it told of the course's job.
pub(crate) fn play<P: Policy + Drop>(
    policy: P,
    table: &Table,
    course: &Course,
    end: u32,
) -> Option<u32>
    requires course { CourseOf (content table.now) (P.meaning policy (content table.now)) course.now }
    ensures { result ≡ seen course.now.task (course.now.lead.ticks + course.now.offset) (answers (content table.now) (P.meaning policy (content table.now)) start (course_until (content table.now) (P.meaning policy (content table.now)) course.now.task course.now.offset end)) }
{
    let mut playing = Playing::new(policy, table, course);
    let mut seen = None;
    // A loop: each turn changes the run and keeps the last answer; a `fold` with the run in its closure would be no plainer.
    for time in 0..end {
        let ticked = playing.tick(time);
        seen = response_told(ticked, course.task(), course.arrival()).or(seen);
    }
    seen
}

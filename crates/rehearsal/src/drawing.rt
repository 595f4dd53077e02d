//! Drawing the timeline of one task along a worst course.
ghost use Rattle.std.specs.Prelude.{◌≡◌, ◌<◌, ◌≤◌, length};
ghost use Rattle.table.specs.Model.{content};
ghost use Rattle.table.specs.Rules.{task_count};
ghost use Rattle.courses.specs.OneCourse.{CourseOf};
ghost use Rattle.dispatch.specs.Replies.{tick_told};
ghost use Rattle.rehearsal.specs.Timeline.{mark, runs, timeline};

use crate::playing::Playing;
use courses::Course;
use dispatch::Ticked;
use policy::Policy;
use table::{Refusal, Table};

// Whether a job of the task ran.
fn runs_now(given: Result<Ticked, Refusal>, job: usize) -> bool
    ensures { result ≡ runs job (tick_told given) }
{
    matches!(given, Ok(Ticked::Ran { task, .. } | Ticked::Finished { task, .. }) if task == job)
}

fn mark_of(releases: bool, runs: bool) -> u8
    ensures { result ≡ mark releases runs }
{
    match (releases, runs) {
        (true, true) => b'*',
        (false, true) => b'#',
        (true, false) => b'^',
        (false, false) => b'.',
    }
}

// The marks of a task over all places.
pub(crate) fn draw<P: Policy + Drop>(
    policy: P,
    table: &Table,
    course: &Course,
    job: usize,
    marks: &mut [u8],
)
    requires course { CourseOf (content table.now) (P.meaning policy (content table.now)) course.now }
    requires job { job < task_count (content table.now) }
    requires few { length marks.old ≤ 200 }
    ensures { marks.new ≡ timeline (content table.now) (P.meaning policy (content table.now)) course.now.task course.now.offset job (length marks.old) }
{
    let mut playing = Playing::new(policy, table, course);
    for (at, mark) in marks.iter_mut().enumerate() {
        let time = at as u32;
        let ticked = playing.tick(time);
        let releases = course.releases(table, job, time);
        *mark = mark_of(releases, runs_now(ticked, job));
    }
}

//! The timeline of a task along a worst course.
ghost use Rattle.table.specs.Model.{content};
ghost use Rattle.rehearsal.specs.Timeline.{Drawn};

use crate::drawing::draw;
use courses::Course;
use policy::Policy;
use table::{Refusal, Table};

// As many characters as a line has.
const LINE_PLACES: usize = 200;

/// Draws what task `job` does along the worst course of a task at an offset, one character for each tick and lent place: `#` it runs, `*` it releases and runs, `^` it releases, `.` neither.
/// Answers whether it drew: not from an offset of 60,000 on, nor over more than 200 places. Refused where the table has no such task, and then where it has no such job's task; what is not drawn over stays as it was.
// The answer is whether it drew: no value goes with the `bool`.
pub fn draw_worst_course<P: Policy + Drop>(
    policy: P,
    table: &Table,
    task: usize,
    offset: u32,
    job: usize,
    marks: &mut [u8],
) -> Result<bool, Refusal>
    ensures { Drawn (content table.now) (P.meaning policy (content table.now)) task offset job marks.old marks.new result }
{
    let told = Course::new(&policy, table, task, offset)?;
    if job >= table.count() {
        return Err(Refusal::NoTaskToJudge { task: job });
    }
    let Some(course) = told else {
        return Ok(false);
    };
    if marks.len() > LINE_PLACES {
        return Ok(false);
    }
    draw(policy, table, &course, job, marks);
    Ok(true)
}

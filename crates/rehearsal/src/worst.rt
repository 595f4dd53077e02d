//! The worst course of a task, played.
ghost use Rattle.table.specs.Model.{content};
ghost use Rattle.rehearsal.specs.Rehearsed.{Rehearsed, AsPromised, HoldsInRuns};
ghost use Rattle.rehearsal.specs.ToPlay.{ToPlay};

use crate::playing::play;
use analysis::Row;
use courses::Course;
use policy::Policy;
use table::{Refusal, Table};

// As many ticks as a clock holds.
pub(crate) const CLOCK_TICKS: u32 = 4_000_000_000;

// The course that a row tells, and the time at which the row's response has passed since its last release; none where the row is out of range.
pub(crate) fn course_to_play<P: Policy>(
    policy: &P,
    table: &Table,
    task: usize,
    row: Row,
) -> Result<Option<(Course, u32)>, Refusal>
    ensures { ToPlay (content table.now) (P.meaning policy.now (content table.now)) task row result }
{
    let Some(course) = Course::new(policy, table, task, row.offset)? else {
        return Ok(None);
    };
    if row.response > CLOCK_TICKS {
        return Ok(None);
    }
    Ok(Some((course, course.arrival() + row.response)))
}

/// Plays the worst course of a task at its row's offset on a fresh run, until the row's response has passed since the last release of the task, and answers the response with which that job was told to finish, if it was.
/// In an admitted table this is the response of the row. None for an offset of 60,000 or more or a response above 4,000,000,000; refused where the table has no such task.
pub fn play_worst_course<P: Policy + Drop>(
    policy: P,
    table: &Table,
    task: usize,
    row: Row,
) -> Result<Option<u32>, Refusal>
    ensures exact { Rehearsed (content table.now) (P.meaning policy (content table.now)) task row result }
    ensures promised { AsPromised (content table.now) (P.meaning policy (content table.now)) task row result }
    ensures guaranteed { HoldsInRuns (content table.now) (P.meaning policy (content table.now)) }
{
    let Some((course, end)) = course_to_play(&policy, table, task, row)? else {
        return Ok(None);
    };
    Ok(play(policy, table, &course, end))
}

//! Which task releases at which tick of a worst course.
ghost use Rattle.table.specs.Model.{content};
ghost use Rattle.courses.specs.Courses.{Told};

use crate::course::Course;
use policy::Policy;
use table::{Refusal, Table};

/// Whether task j releases at tick t in the worst course of task i at offset a; no from an offset of 60,000 on. Refused where the table lacks i, then where it lacks j.
pub fn worst_course<P: Policy>(
    policy: &P,
    table: &Table,
    i: usize,
    a: u32,
    j: usize,
    t: u32,
) -> Result<bool, Refusal>
    ensures { Told (content table.now) (P.meaning policy.now (content table.now)) i a j t result }
{
    let course = Course::new(policy, table, i, a)?;
    if j >= table.count() {
        return Err(Refusal::NoTaskToJudge { task: j });
    }
    Ok(course.is_some_and(|course| course.releases(table, j, t)))
}

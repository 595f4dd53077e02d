//! The first deadline that a worst course misses.
ghost use Rattle.std.specs.Prelude.{Some};
ghost use Rattle.table.specs.Model.{content};
ghost use Rattle.rehearsal.specs.FirstMiss.{Sought, LateSeen};
ghost use Rattle.rehearsal.specs.Shown.{miss_text};

use crate::seeking::seek;
use crate::worst::{CLOCK_TICKS, course_to_play};
use analysis::Row;
use policy::Policy;
use std::fmt;
use table::{Refusal, Table};

/// A deadline that was missed: the job of this task, released then, was unfinished at this time.
#[derive(Clone, Copy, Debug, PartialEq, Eq)]
pub struct Miss {
    /// The number of the job's task.
    pub task: usize,
    /// The tick of its release.
    pub release: u32,
    /// Its deadline.
    pub time: u32,
}

impl fmt::Display for Miss {
    ghost output = { λ miss. Some (miss_text miss) };

    fn fmt<W: fmt::Write>(&self, f: &mut fmt::Formatter<W>) -> fmt::Result {
        write!(f, "missed {}@{} at {}", self.task, self.release, self.time)
    }
}

/// Plays the worst course of a task at its row's offset on a fresh run, until the row's response has passed since the last release of the task, and answers the first job that was unfinished as its deadline came, that of the lowest-numbered task if there are several; none where every job met its deadline.
/// In a late row of a judgement there is one. None for an offset of 60,000 or more or a response above 4,000,000,000; refused where the table has no such task.
pub fn first_miss<P: Policy + Drop>(
    policy: P,
    table: &Table,
    task: usize,
    row: Row,
) -> Result<Option<Miss>, Refusal>
    ensures sought { Sought (content table.now) (P.meaning policy (content table.now)) task row result }
    ensures late { LateSeen (content table.now) (P.meaning policy (content table.now)) task row result }
{
    let Some((course, end)) = course_to_play(&policy, table, task, row)? else {
        return Ok(None);
    };
    Ok(seek(policy, table, &course, end.min(CLOCK_TICKS)))
}

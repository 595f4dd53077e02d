//! A new station, and its calls that need no policy.
ghost use Rattle.std.specs.Prelude.{◌≡◌, [], OnErr};
ghost use Rattle.table.specs.Model.{content};
ghost use Rattle.policy.specs.Laws.{Lawful};
ghost use Rattle.policy.specs.Order.{Order};
ghost use Rattle.theory.specs.Machine.{release, look};
ghost use Rattle.dispatch.specs.Lines.{board};
ghost use Rattle.dispatch.specs.Oldest.{FirstOf};
ghost use Rattle.dispatch.specs.Replies.{release_told, look_told};
ghost use Rattle.dispatch.specs.Represents.{Answered, Answers};

use super::Station;
use crate::line::Line;
use crate::replies::Counts;
use crate::stage::Stage;
use table::{Refusal, Table};

impl Station {
    // A station at time 0 with no jobs.
    pub(crate) fn new(table: &Table) -> Station
        ensures table { result.table ≡ table.now }
        ensures answered { (o : Order) → Answered o result [] }
    {
        Station {
            table: *table,
            time: 0,
            lines: [Line::new(); 24],
            stage: Stage::Idle,
        }
    }

    pub(crate) fn release(&mut self, task: usize) -> Result<u32, Refusal>
        ensures table { self.new.table ≡ self.old.table }
        ensures refused { OnErr result (self.new ≡ self.old) }
        ensures answered { (o : Order) → Lawful (content self.old.table) o → Answers o self.old self.new (release task) (release_told result) }
    {
        let Some(known) = self.table.task(task) else {
            return Err(Refusal::NoTaskToRun { task });
        };
        let line = self.line(task);
        if line.is_soon(self.time) {
            return Err(Refusal::TooSoon { task });
        }
        if line.is_full() {
            return Err(Refusal::QueueFull { task });
        }
        self.put(task, line.push(self.time, known));
        Ok(self.time)
    }

    pub(crate) fn look(&self, task: usize) -> Result<Counts, Refusal>
        ensures { (o : Order) → Answers o self.now self.now (look task) (look_told result) }
    {
        if task >= self.table.count() {
            return Err(Refusal::NoTaskToRun { task });
        }
        Ok(self.line(task).counts())
    }
    // The release of the oldest waiting job of a task.
    pub(crate) fn oldest(&self, task: usize) -> Result<Option<u32>, Refusal>
        ensures { FirstOf (content self.now.table) (board self.now.lines) task result }
    {
        if task >= self.table.count() {
            return Err(Refusal::NoTaskToRun { task });
        }
        Ok(self.first(task))
    }
}

//! Reading and writing the line of a task.
ghost use Rattle.std.specs.Prelude.{◌≡◌, ◌<◌};
ghost use Rattle.table.specs.Model.{content};
ghost use Rattle.table.specs.Rules.{task_count};
ghost use Rattle.dispatch.specs.Lines.{board, line_summary};
ghost use Rattle.dispatch.specs.Put.{Put};

use super::Station;
use crate::line::Line;

impl Station {
    pub(crate) fn line(&self, task: usize) -> Line
        requires { task < task_count (content self.now.table) }
        ensures { line_summary result ≡ board self.now.lines task }
    {
        self.lines[task]
    }

    pub(crate) fn put(&mut self, task: usize, line: Line)
        requires { task < task_count (content self.old.table) }
        ensures { Put self.old self.new task (line_summary line) }
    {
        self.lines[task] = line;
    }
}

//! What a table says.
ghost use Rattle.std.specs.Prelude.{◌≡◌, map, length};
ghost use Rattle.table.specs.Content.{sporadic};
ghost use Rattle.table.specs.Model.{content, Found};

use super::Table;
use crate::kinds::{Mode, PolicyCode};
use crate::task::Task;

impl Table {
    /// The policy that the table asks for.
    pub fn policy(&self) -> PolicyCode
        ensures { result ≡ (content self.now).policy }
    {
        self.policy
    }

    /// Whether a begun job may be displaced.
    pub fn mode(&self) -> Mode
        ensures { result ≡ (content self.now).mode }
    {
        self.mode
    }

    /// How many tasks are in the first band; 0 unless the policy is Bands.
    pub fn band(&self) -> usize
        ensures { result ≡ (content self.now).band }
    {
        self.band
    }

    /// How many tasks there are.
    pub fn count(&self) -> usize
        ensures { result ≡ length (content self.now).tasks }
    {
        self.tasks().len()
    }

    /// The tasks, in table order; task numbers count from 0.
    pub fn tasks(&self) -> &[Task]
        ensures { map sporadic result.now ≡ (content self.now).tasks }
    {
        &self.tasks[..self.count]
    }

    /// The task of this number; none where the table has no such task.
    pub fn task(&self, number: usize) -> Option<Task>
        ensures { Found (content self.now) number result }
    {
        self.tasks().get(number).copied()
    }
}

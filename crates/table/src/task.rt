//! One task of a table.
ghost use Rattle.std.specs.Prelude.{◌≡◌};
ghost use Rattle.table.specs.Content.{sporadic};
ghost use Rattle.table.specs.Model.{fresh_task};

use crate::name::Name;

/// The most tasks that a table has.
pub const MOST_TASKS: usize = 24;

/// A sporadic task. Ticks are whole numbers; a lower rank is the higher fixed priority.
#[derive(Clone, Copy)]
pub struct Task {
    /// C: the longest time that a job runs.
    pub cost: u32,
    /// T: the least distance between two releases.
    pub period: u32,
    /// D: a job is due this long after its release.
    pub deadline: u32,
    /// The fixed priority, 1 for the highest; no two tasks of a table share one.
    pub rank: u8,
    /// What a report calls it; two tasks may share one.
    pub name: Name,
}

impl Task {
    /// The task of a fresh table: named A, with C, T, D and rank 1.
    pub fn fresh() -> Task
        ensures { sporadic result ≡ fresh_task }
    {
        Task {
            cost: 1,
            period: 1,
            deadline: 1,
            rank: 1,
            name: Name::single(),
        }
    }
}

//! The busy period of a table.
ghost use Rattle.std.specs.Prelude.{◌≡◌, ℕ, ◌<◌, ◌≤◌, length};
ghost use Rattle.table.specs.Model.{content};
ghost use Rattle.table.specs.Rules.{task_at, task_count};
ghost use Rattle.analysis.specs.Busy.{FullLane, Busy};
ghost use Rattle.analysis.specs.Lanes.{lane_at};

use crate::lanes::all::climb;
use crate::lanes::{IDLE, Lane};
use std::array;
use table::Table;

/// The longest busy period that is judged.
pub const LONGEST_BUSY_PERIOD: u32 = 60_000;

// Task j with every release counted.
fn full_lane(table: &Table, j: usize) -> Lane
    ensures { j < task_count (content table.now) → FullLane (task_at (content table.now) j) result }
{
    let Some(task) = table.task(j) else {
        return IDLE;
    };
    Lane {
        cost: task.cost,
        period: task.period,
        lead: 0,
        limit: 70_000,
    }
}

/// The busy period of the table; none where there is none of up to 60,000 ticks.
pub fn busy_period(table: &Table) -> Option<u32>
    ensures { Busy (content table.now) result }
{
    let lanes: [Lane; 24] = array::from_fn(|j| full_lane(table, j));
    climb(&lanes[..table.count()], 0, 1, LONGEST_BUSY_PERIOD)
}

//! The station: a table, the time, and a line for each task.
ghost use Rattle.std.specs.Prelude.{◌≡◌, ◌≤◌, length};

use crate::line::Line;
use crate::stage::Stage;
use table::Table;

/// All of a run but its policy.
#[derive(Clone, Copy)]
pub struct Station {
    table: Table,
    time: u32,
    // Beside the table's tasks, by their numbers: a table is handed to policies as it is.
    lines: [Line; 24],
    stage: Stage,
    ghost room: { length lines ≡ 24 },
    ghost clock: { time ≤ 4000000000 },
}

pub mod calls;
#[cfg(test)]
pub mod late;
pub mod lines;
pub mod parts;
pub mod ticks;

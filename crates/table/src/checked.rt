//! The checked table. Its type keeps every range and different ranks, so no call that takes one tests them again.
ghost use Rattle.std.specs.Prelude.{◌≡◌, ◌≤◌, true, map, length, take};
ghost use Rattle.table.specs.Rules.{follows_rules};
ghost use Rattle.table.specs.Content.{sporadic};

use crate::kinds::{Mode, PolicyCode};
use crate::task::{MOST_TASKS, Task};

/// A table of 1 to 24 tasks: the first `count` of `tasks`.
// A buffer with its length: there is no heap, and the kit's `ArrayVec` is not `Copy`. No derived equality: equal tables may differ behind their last task. No `Model`: the task set forgets the places behind `count`, so it gives no table back, and `Copy` needs that.
#[derive(Clone, Copy)]
pub struct Table {
    policy: PolicyCode,
    mode: Mode,
    band: usize,
    count: usize,
    tasks: [Task; MOST_TASKS],
    ghost room: { length tasks ≡ 24 },
    ghost few: { count ≤ 24 },
    ghost rules: { follows_rules policy band (map sporadic (take count tasks)) ≡ true },
}

pub mod build;
pub mod parts;

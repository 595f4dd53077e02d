//! A worst course, with its lead found once.
ghost use Rattle.std.specs.Prelude.{◌<◌, ◌≤◌};

use crate::lead::Lead;

/// The worst course of a task at an offset.
#[derive(Clone, Copy)]
pub struct Course {
    lead: Lead,
    task: usize,
    offset: u32,
    ghost brief: { lead.ticks ≤ 1 },
    ghost short: { offset < 60000 },
}

pub mod ticks;

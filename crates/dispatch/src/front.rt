//! The first job of a line that is to run.
use crate::line::Line;
use table::Task;

/// The job's task and release, with the line that it is the first of.
#[derive(Clone, Copy)]
pub struct Front {
    pub task: usize,
    pub release: u32,
    pub line: Line,
    pub known: Task,
}
